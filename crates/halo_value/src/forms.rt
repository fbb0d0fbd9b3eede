// The compiled forms of the pays of a contract, and of its premium.
ghost use Rattle.std.specs.Prelude.{◌≡◌, ◌^◌, All, IfOk, length, map};
ghost use Rattle.std.specs.List.{AllZip};
ghost use Rattle.halo_status.specs.Pay.{pay_of};
ghost use Rattle.halo_contract.specs.PlainContract.{contract_of};
ghost use Rattle.halo_contract.specs.ValidContract.{IsValidContract};
ghost use Rattle.halo_model.specs.FromTables.{lives_of};
ghost use Rattle.halo_value.specs.Forms.{AreForms, HaveSets, IsFormOn};
ghost use Rattle.halo_value.specs.Setting.{CanBeValued};

use crate::Memory;
use crate::lives::declared_lives;
use halo_compile::{Form, compile};
use halo_contract::Contract;
use halo_model::horizon;
use halo_status::Pay;
use halo_table::{Life, Tables};
use std::alloc::Global;

/// The compiled forms of the pays of a contract, in its order, and last of its premium, if there is
/// one. M is the number of sets of its lives.
pub fn compiled_forms<const M: usize>(
    alloc: Global,
    tables: &Tables,
    contract: &Contract,
) -> Result<Vec<Form<M>>, Memory>
    requires sets { M ≡ 2 ^ length (contract_of contract.now).lives }
    requires valid { IsValidContract tables.now (contract_of contract.now) }
    ensures { IfOk result (λ forms.
        AreForms tables.now (contract_of contract.now) forms.items) }
{
    let lives = declared_lives(alloc, &contract.lives)?;
    let mut forms = forms_of_pays(alloc, &contract.pays, tables, &lives)?;
    if let Some(pay) = &contract.premium {
        forms.push(form_of_pay(alloc, pay, tables, &lives)?)?;
    }
    Ok(forms)
}

// The form of each pay.
fn forms_of_pays<const M: usize>(
    alloc: Global,
    pays: &[Pay],
    tables: &Tables,
    lives: &[Life],
) -> Result<Vec<Form<M>>, Memory>
    requires lives { HaveSets tables.now lives.now M }
    requires pays { All (CanBeValued (length lives.now)) (map pay_of pays.now) }
    ensures { IfOk result (λ forms. AllZip
        (IsFormOn (length lives.now) (lives_of tables.now lives.now))
        (map pay_of pays.now) forms.items) }
{
    let mut forms = Vec::new(alloc);
    for pay in pays {
        forms.push(form_of_pay(alloc, pay, tables, lives)?)?;
    }
    Ok(forms)
}

// The form of a pay, up to its horizon.
fn form_of_pay<const M: usize>(
    alloc: Global,
    pay: &Pay,
    tables: &Tables,
    lives: &[Life],
) -> Result<Form<M>, Memory>
    requires lives { HaveSets tables.now lives.now M }
    requires pay { CanBeValued (length lives.now) (pay_of pay.now) }
    ensures { IfOk result (λ form.
        IsFormOn (length lives.now) (lives_of tables.now lives.now) (pay_of pay.now) form) }
{
    let horizon = horizon(&pay.body, tables, lives);
    compile(alloc, pay, horizon)
}
