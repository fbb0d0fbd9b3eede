// Laws of the definitions: functions that do nothing, whose contracts are the laws.
ghost use Rattle.halo_model.specs.ByTreeLaws.{ExistenceByTree, ExpectedByTree};
ghost use Rattle.halo_model.specs.Backward.{AnnuityBySets, AnnuityIsBounded, DueIsWorthOne};
ghost use Rattle.halo_model.specs.Backward.{NothingAfterHorizon};
ghost use Rattle.halo_model.specs.ByYears.{InsuranceByYears, InsuranceFromAnnuity, TiesDoNotMatter};
ghost use Rattle.halo_model.specs.ChanceLaws.{ChanceOnEnd, ChanceOnLeaving};
ghost use Rattle.halo_model.specs.ChanceLaws.{NoChanceOnEndOutside, NoChanceOnLeavingOutside};
ghost use Rattle.halo_model.specs.ChanceLaws.{NoChanceOnOtherEnd, NoChanceOnOtherLeaving};
ghost use Rattle.halo_model.specs.Columns.{ColumnsAgreeOnOneLife};
ghost use Rattle.halo_model.specs.Enclosed.{ValuesScale};
ghost use Rattle.halo_model.specs.EnclosureLaws.{BenefitsFit, DueFits, NoBenefits, OneBenefitMore};
ghost use Rattle.halo_model.specs.EnclosureLaws.{PremiumOfBenefits};
ghost use Rattle.halo_model.specs.EnclosureLaws.{ReserveWithPremium, ReserveWithoutPremium};
ghost use Rattle.halo_model.specs.Horizon.{HorizonIsLeast};
ghost use Rattle.halo_model.specs.LastTime.{ContractsArePaidInTime, LastTimeDoesNotMatter};
ghost use Rattle.halo_model.specs.LastTime.{LastTimeOfPremium, LastTimeOfReserve};
ghost use Rattle.halo_model.specs.Laws.{ExpectedByCoefficients, ExpectedBySets};
ghost use Rattle.halo_model.specs.Laws.{LivesOfTablesKeepTheRule, WeightsAddUp};
ghost use Rattle.halo_model.specs.Line.{PayHasLine, PremiumHasLine, ReserveHasLine, TotalHasLine};
ghost use Rattle.halo_model.specs.MarkLaws.{FirstMarksAddUp, RanksAddUp};
ghost use Rattle.halo_model.specs.OneLife.{DueOnOneLife, InsuranceOnOneLife};
ghost use Rattle.halo_model.specs.OrderLaws.{FirstLeavingEvenly, LeavingsOfASet, MeanOverOrders};
ghost use Rattle.halo_model.specs.OrderLaws.{OrdersCounted, SomeLeavesInEachOrder};
ghost use Rattle.halo_model.specs.PartsByTree.{ChanceOnEndByTree, ChanceOnLeavingByTree};
ghost use Rattle.halo_model.specs.PartsByTree.{ExistingByTree, EndLossIsNotNegative};
ghost use Rattle.halo_model.specs.PartsByTree.{LossIsNotNegative, PayLossIsNotNegative};
ghost use Rattle.halo_model.specs.OneEvent.{OneEventAYear};
ghost use Rattle.halo_model.specs.OnePayment.{EndIsBounded, EndsAreBounded, InsuranceIsBounded};
ghost use Rattle.halo_model.specs.OnePayment.{LeavingIsBounded, LeavingsAreBounded, OnePayment};
ghost use Rattle.halo_model.specs.OnePayment.{OrdersGiveOwnRanks};
ghost use Rattle.halo_model.specs.PartLaws.{DueByParts, ImmediateByParts, InsuranceByParts};
ghost use Rattle.halo_model.specs.PartLaws.{ReversionAddsUp};
ghost use Rattle.halo_model.specs.PositiveLaws.{ContractsHavePositiveDenominators};
ghost use Rattle.halo_model.specs.PositiveLaws.{DenominatorIsPositive, PremiumIsWorthOne};
ghost use Rattle.halo_model.specs.ReserveLaw.{ReserveIsConditional};
ghost use Rattle.halo_model.specs.SecondMoment.{DeferralsTell, SecondMomentByDeferrals};
ghost use Rattle.halo_model.specs.SecondMoment.{SecondMomentByYears};
ghost use Rattle.halo_model.specs.SetLaws.{EndBySets, InsuranceBySets, LeavingBySets};
ghost use Rattle.halo_model.specs.PayPart.{PartHasLine, PartsAddUp};
ghost use Rattle.halo_model.specs.RunPart.{RunPartsAddUp};
ghost use Rattle.halo_model.specs.Unnamed.{UnnamedDoNotCount};

/// Lives that have rows in the tables of a file without fault keep the rule of a decrement table:
/// the next survivors are the survivors less the leavers, and after the last year nobody is alive.
pub fn lives_of_tables_keep_the_rule()
    ensures { LivesOfTablesKeepTheRule }
{}

/// The weights of all outcomes from a time on add up to the product of the survivors then.
pub fn weights_add_up()
    ensures { WeightsAddUp }
{}

/// What is expected of the lives that are there, each at a time of its own: by the sets of lives
/// that can be there, and by the coefficients of inclusion and exclusion.
pub fn expected_of_the_lives_there()
    ensures by_sets { ExpectedBySets }
    ensures by_coefficients { ExpectedByCoefficients }
{}

/// The chance that a status exists in which no life stands twice goes along its tree: of
/// independent lives that are each there with a chance, and over the outcomes of lives that are
/// each looked at at a time of its own.
pub fn chance_goes_along_the_tree()
    ensures independent { ExistenceByTree }
    ensures expected { ExpectedByTree }
{}

/// The parts of a value of a pay whose body is read once go along the tree of the status on which
/// it waits: that it exists at a time; that a payment falls on a life's leaving, as what the status
/// loses where the life is surely there and surely not; and that one falls on the end of a term.
pub fn parts_go_along_the_tree()
    ensures existing { ExistingByTree }
    ensures leaving { ChanceOnLeavingByTree }
    ensures end { ChanceOnEndByTree }
{}

/// A lasting status is not less likely where a life is surely there than where it is surely not;
/// nor is the status on which an insurance waits, for a life of the marked member if there is a
/// mark.
pub fn losses_are_not_negative()
    ensures lasting { LossIsNotNegative }
    ensures pays { PayLossIsNotNegative }
    ensures ends { EndLossIsNotNegative }
{}

/// The chance that a payment of an insurance falls on a life's leaving, for any order of lives:
/// by the coefficients of its form. None falls on a leaving that cannot come or is not allowed,
/// nor, on a marked list, on the leaving of a life that the marked member does not name.
pub fn chance_on_a_leaving()
    ensures chance { ChanceOnLeaving }
    ensures none_outside { NoChanceOnLeavingOutside }
    ensures none_on_others { NoChanceOnOtherLeaving }
{}

/// The chance that a payment of an insurance by any cause falls on the end of a term: by the
/// coefficients of what its form loses with the term. None falls on an end that is not allowed,
/// nor, on a marked list, on the end of a term that the marked member does not name.
pub fn chance_on_an_end()
    ensures chance { ChanceOnEnd }
    ensures none_outside { NoChanceOnEndOutside }
    ensures none_on_others { NoChanceOnOtherEnd }
{}

/// The value of a pay is the sum of its parts: of an annuity, over the times at which it can pay;
/// of an insurance, in each order taken, over the leavings of the lives and the ends of the terms.
pub fn values_by_parts()
    ensures due { DueByParts }
    ensures immediate { ImmediateByParts }
    ensures insurance { InsuranceByParts }
{}

/// An annuity is worth what the sets of lives add, each over the years backward: what is paid at a
/// time, and what is paid later, discounted for a year and times the chance that the set survives
/// it. After the last time of its form a pay has no coefficient on lives that are alive.
pub fn annuity_by_sets()
    ensures value { AnnuityBySets }
    ensures no_more { NothingAfterHorizon }
{}

/// An annuity of 1 is worth at most its greatest factor at each time of its form, and an
/// annuity-due of 1, level and without deferral, is worth at least 1 where its body exists at the
/// start.
pub fn annuity_bounds()
    ensures most { AnnuityIsBounded }
    ensures least { DueIsWorthOne }
{}

/// What the coefficients of all sets of lives add in all segments of an annuity is its value at the
/// start, with all lives alive.
pub fn run_parts_add_up()
    ensures { RunPartsAddUp }
{}

/// Only sets of lives that the body of a pay names have coefficients.
pub fn unnamed_lives_do_not_count()
    ensures { UnnamedDoNotCount }
{}

/// The annuity-due on one life is what the books write: the sum of the discounted payments times
/// the survivors at their times, over the survivors at the start. ä_x = Σ_t v^t · l_(x+t) / l_x
pub fn due_on_one_life()
    ensures { DueOnOneLife }
{}

/// The insurance on one life is what the books write: the sum of the discounted payments times
/// those who leave in their years, over the survivors at the start.
/// A_x = Σ_k v^(k+1) · d_(x+k) / l_x
pub fn insurance_on_one_life()
    ensures { InsuranceOnOneLife }
{}

/// A reversion, the annuity on w after u, and one on u and w together are worth what the annuity on
/// w is worth. a_(u|w) = a_w - a_(u:w)
pub fn reversion_adds_up()
    ensures { ReversionAddsUp }
{}

/// Contingent insurances add up. Of joint members that share nothing one fails first, so the
/// insurances on each member as the first are together the insurance on all; and a member fails at
/// some rank, so the insurances on it at each rank are together the insurance on it alone.
pub fn marks_add_up()
    ensures first { FirstMarksAddUp }
    ensures ranks { RanksAddUp }
{}

/// A reserve is a conditional expectation: over the outcomes from the start in which exactly the
/// lives of a set are there at a time, the mean of the value then of what is still to be paid is
/// the value at that time with these lives alive.
pub fn reserve_is_conditional()
    ensures { ReserveIsConditional }
{}

/// The denominators of values are at least 1, so that each value is a fraction: where each life
/// that is alive has survivors, and each year an interest. A premium of 1 is worth at least 1 at
/// the start, where its status exists. So it is for every contract that can be valued: at the
/// start, for its premium and for each of its reserves.
pub fn denominators_are_positive()
    ensures values { DenominatorIsPositive }
    ensures premium { PremiumIsWorthOne }
    ensures contracts { ContractsHavePositiveDenominators }
{}

/// The last time up to which payments are looked at does not matter: a pay is worth the same
/// fraction with any two last times from its horizon on, since nothing is paid after it. So are the
/// premium and each reserve. The last time of a contract that can be valued is after all horizons.
pub fn last_time_does_not_matter()
    ensures value { LastTimeDoesNotMatter }
    ensures premium { LastTimeOfPremium }
    ensures reserve { LastTimeOfReserve }
    ensures contracts { ContractsArePaidInTime }
{}

/// The horizon of a status is the least number of years that is at least 1, as many as each life
/// that the status names has left, and as long as each of its terms.
pub fn horizon_is_least()
    ensures { HorizonIsLeast }
{}

/// A pay is worth its amount times what it is worth with amount 1.
pub fn values_scale()
    ensures { ValuesScale }
{}

/// From intervals that enclose the pays, each with amount 1 and within its count, come intervals
/// that enclose all pays together, the premium and the reserves, each within its own.
pub fn benefits_are_enclosed()
    ensures none { NoBenefits }
    ensures more { OneBenefitMore }
    ensures premium { PremiumOfBenefits }
    ensures reserve { ReserveWithPremium }
    ensures reserve_alone { ReserveWithoutPremium }
{}

/// What is enclosed within its count has its line in the report, once it is printed outward.
pub fn enclosed_values_have_lines()
    ensures pay { PayHasLine }
    ensures total { TotalHasLine }
    ensures premium { PremiumHasLine }
    ensures reserve { ReserveHasLine }
{}

/// Within the limits of contracts the values of all pays and of a premium of 1 are small enough for
/// the calls of `halo_num`.
pub fn values_fit()
    ensures benefits { BenefitsFit }
    ensures due { DueFits }
{}

/// Commutation columns give the values on one life: the annuity-due is worth N / D, and the
/// insurance M / D, at the age of the life. ä_x = N_x / D_x and A_x = M_x / D_x
pub fn columns_agree()
    ensures { ColumnsAgreeOnOneLife }
{}

/// Orders counted: of n lives, a one of them, s others and j of these, the orders in which of the
/// s others exactly the j come before a are one in (s + 1) C(s, j) of all.
pub fn orders_are_counted()
    ensures { OrdersCounted }
{}

/// The mean over all orders of a product over some lives, in which a life counts one number where
/// it comes before a given life and another where it does not, by how many come before it.
pub fn mean_over_orders()
    ensures { MeanOverOrders }
{}

/// The first of a set of lives to leave in a year. What the chances of the leavings ask for is that
/// the first to leave leaves by a cause that is asked for. Over all orders, each life of the set is
/// the first of it with equal chance: it leaves, or it stays and the others are asked. And where
/// all causes are asked for, it is in each order the chance that not all of the set stay.
pub fn first_to_leave()
    ensures leavings { LeavingsOfASet }
    ensures evenly { FirstLeavingEvenly }
    ensures any_cause { SomeLeavesInEachOrder }
{}

/// An insurance by sets of lives. Its value, and what falls on one leaving or on the end of one
/// term, is a sum over the sets of the lives alive. For each set, it is a recursion from the last
/// year back: what is due for the set at the end of the year, by the coefficients of the form, and
/// what comes after are discounted together.
pub fn insurances_by_sets()
    ensures whole { InsuranceBySets }
    ensures leaving { LeavingBySets }
    ensures end { EndBySets }
{}

/// In each order taken, each life has a rank of its own.
pub fn orders_give_own_ranks()
    ensures { OrdersGiveOwnRanks }
{}

/// On each outcome and in each order taken, an insurance has at most one payment.
pub fn one_payment()
    ensures { OnePayment }
{}

/// An insurance, and each part of it, is worth no less than nothing and no more than the most that
/// it can pay at once: its amount by its greatest factor up to its horizon.
pub fn insurances_are_bounded()
    ensures whole { InsuranceIsBounded }
    ensures leaving { LeavingIsBounded }
    ensures end { EndIsBounded }
    ensures leaving_in_all_orders { LeavingsAreBounded }
    ensures end_in_all_orders { EndsAreBounded }
{}

/// In each order taken, the events of a year on which an insurance by any cause pays, without a
/// mark, number 1 where its body exists at the start of the year and not at its end, else 0.
pub fn one_event_a_year()
    ensures { OneEventAYear }
{}

/// An insurance by any cause, without a mark, pays for each year the fall of the weight with which
/// its body exists, from the start of the year to its end, whichever orders are taken.
pub fn insurances_by_years()
    ensures years { InsuranceByYears }
    ensures annuity { InsuranceFromAnnuity }
    ensures ties { TiesDoNotMatter }
{}

/// Since an insurance pays at most once, it is told year by year. Without interest, the level
/// insurance deferred by a year more is worth less by the weight with which it pays for that year;
/// and the squares of the values are the payments squared, each with the weight of its year.
pub fn payments_by_years()
    ensures deferrals { DeferralsTell }
    ensures second_moment { SecondMomentByYears }
    ensures by_deferrals { SecondMomentByDeferrals }
{}

/// A part of a pay is worth the amount times what it is worth with amount 1: so its line is that of
/// this multiple, printed outward.
pub fn parts_have_lines()
    ensures { PartHasLine }
{}

/// The parts of a pay that a contract may have add up to its value.
pub fn parts_add_up()
    ensures { PartsAddUp }
{}
