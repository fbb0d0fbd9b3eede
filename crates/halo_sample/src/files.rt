// The two files of a sample.
ghost use Rattle.std.specs.Prelude.{◌≡◌, IfOk};
ghost use Rattle.halo_sample.specs.Sample.{sample_contract, sample_tables};

use crate::Memory;
use crate::contract::write_contract;
use crate::generator::Generator;
use crate::tables::write_tables;
use std::alloc::Global;

/// The two files of a sample.
#[derive(Drop)]
pub struct SampleFiles {
    /// The tables file.
    pub tables: Vec<u8>,
    /// The contract file.
    pub contract: Vec<u8>,
}

/// The sample of a number: the same files at each call.
pub fn sample(alloc: Global, number: u64) -> Result<SampleFiles, Memory>
    ensures tables { IfOk result (λ files. files.tables.items ≡ sample_tables number) }
    ensures contract { IfOk result (λ files. files.contract.items ≡ sample_contract number) }
{
    let mut draws = Generator::new(number);
    let mut tables = Vec::new(alloc);
    write_tables(&mut draws, &mut tables)?;
    let mut contract = Vec::new(alloc);
    write_contract(&mut draws, &mut contract)?;
    Ok(SampleFiles { tables, contract })
}
