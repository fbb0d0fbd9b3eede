// The values of all pays at one time.
ghost use Rattle.std.specs.Prelude.{◌≡◌, ◌<◌, All, IfOk, length};
ghost use Rattle.halo_value.specs.ContractValues.{starts_of, values_at};

use crate::Memory;
use crate::pass::PayValues;
use halo_num::Ival;
use std::alloc::Global;

/// The values of all pays at the start.
pub fn starts(alloc: Global, values: &[PayValues]) -> Result<Vec<Ival>, Memory>
    ensures { IfOk result (λ column. column.items ≡ starts_of values.now) }
{
    let mut column = Vec::new(alloc);
    for pay in values {
        column.push(pay.start)?;
    }
    Ok(column)
}

/// The values of all pays at the reserve of a place.
pub fn at_reserve(alloc: Global, values: &[PayValues], place: usize) -> Result<Vec<Ival>, Memory>
    requires { All (λ pay. place < length pay.later.items) values.now }
    ensures { IfOk result (λ column. column.items ≡ values_at values.now place) }
{
    let mut column = Vec::new(alloc);
    for pay in values {
        column.push(pay.later[place])?;
    }
    Ok(column)
}
