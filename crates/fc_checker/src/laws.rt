//! Laws of the definitions, each the contract of a function that does nothing.

ghost use Rattle.fc_checker.specs.Laws.{CertificatesHaveNoFault, ClaimsAreOne, FaultsAreOne};

/// Bytes that are a certificate of a position have no fault but want of memory.
pub fn certificates_have_no_fault()
    ensures { CertificatesHaveNoFault }
{}

/// No bytes have two faults but want of memory.
pub fn faults_are_one()
    ensures { FaultsAreOne }
{}

/// No bytes are certificates of two claims.
pub fn claims_are_one()
    ensures { ClaimsAreOne }
{}
