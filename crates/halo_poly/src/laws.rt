// Laws of the definitions: functions that do nothing, whose contracts are the laws.
ghost use Rattle.halo_poly.specs.Symmetric.{AtLeastIsSum, ExactlyIsSum, SymmetricSumCounts};

/// Inclusion and exclusion for symmetric statuses. Of a list of statuses, at least r exist where
/// the sum over j of (-1)^(j - r) C(j - 1, r - 1) times the number of parts with j statuses that
/// exist whole is 1, and else the sum is 0; and exactly r exist where that with C(j, r) is 1.
pub fn symmetric_statuses()
    ensures at_least { AtLeastIsSum }
    ensures exactly { ExactlyIsSum }
    ensures counts { SymmetricSumCounts }
{}
