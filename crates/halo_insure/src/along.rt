// Which insurances are valued along the tree of their body.
ghost use Rattle.std.specs.Prelude.{◌≡◌, ◌↔◌, IsTrue};
ghost use Rattle.halo_status.specs.declared.pay.Kind.TheVariants.{Insurance};
ghost use Rattle.halo_insure.specs.Along.{GoesAlong, PartsGoAlong};

use halo_compile::Task;

/// Whether the tree of the body tells the value of an insurance: no life stands in the body twice,
/// and the insurance falls due by its body alone, or the lives of one year leave in the declared
/// order.
pub(crate) fn goes_along<const N: usize, const M: usize>(task: &Task<N, M>) -> bool
    requires insurance { task.now.pay.now.kind ≡ Insurance }
    ensures { IsTrue result ↔ GoesAlong task.now }
{
    let by_its_body = task.pay.mark.is_none() && task.pay.causes.is_none();
    (by_its_body || !task.group.is_even()) && task.pay.body.read_once()
}

/// Whether it tells what falls on one event: the order of the lives matters even where the
/// insurance falls due by its body alone.
pub(crate) fn parts_go_along<const N: usize, const M: usize>(task: &Task<N, M>) -> bool
    ensures { IsTrue result ↔ PartsGoAlong task.now }
{
    !task.group.is_even() && task.pay.body.read_once()
}
