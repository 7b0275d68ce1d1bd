//! The laws of the numbers that the print gives for each two views: what they count, and that they reach each call that stands in
//! both. `specs/Agreements.antt` states them.

ghost use Rattle.vic_runs.specs.Agreements.{AgreementIs, AgreementsCount, SameShownIs};

/// The test of equality of shown calls finds what is equal.
pub fn same_shown_is()
    ensures { SameShownIs }
{}

/// The number is how many calls two lists have in common at their front.
pub fn agreement_is()
    ensures { AgreementIs }
{}

/// Each call that stands in both views stands within their number.
pub fn agreements_count()
    ensures { AgreementsCount }
{}
