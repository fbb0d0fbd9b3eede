// Worked values: functions that do nothing, whose contracts say that they come out.
ghost use Rattle.halo_model.specs.WorkedColumns.{ColumnRows};
ghost use Rattle.halo_model.specs.WorkedOrders.{OrderRows};
ghost use Rattle.halo_model.specs.WorkedForms.{FormRows, LongRows, SegmentRows};
ghost use Rattle.halo_model.specs.WorkedMoments.{MomentRows};
ghost use Rattle.halo_model.specs.WorkedRows.{AnnuityRows, CauseRows, EvenRows, InsuranceRows};
ghost use Rattle.halo_model.specs.WorkedRows.{InterestRows, PremiumRows, VaryingRows};

/// The values that the definitions give on a basis of small tables, worked out by hand.
pub fn worked_rows()
    ensures annuities { AnnuityRows }
    ensures insurances { InsuranceRows }
    ensures varying { VaryingRows }
    ensures causes { CauseRows }
    ensures even { EvenRows }
    ensures interest { InterestRows }
    ensures premiums { PremiumRows }
{}

/// The coefficients and segments of some forms, worked out by hand, and the value, horizon and
/// widths of two lives in tables of 60 and of 50 of whom one leaves each year.
pub fn worked_forms()
    ensures forms { FormRows }
    ensures segments { SegmentRows }
    ensures long { LongRows }
{}

/// The commutation columns of a small table, and how wide they may be, worked out by hand.
pub fn worked_columns()
    ensures { ColumnRows }
{}

/// Chances over all orders of two and of three lives, of whom half leave in a year, and a number of
/// orders, worked out by hand.
pub fn worked_orders()
    ensures { OrderRows }
{}

/// Second moments of insurances on a basis of small tables, worked out by hand.
pub fn worked_moments()
    ensures { MomentRows }
{}
