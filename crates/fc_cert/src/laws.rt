//! Laws of the definitions, each the contract of a function that does nothing.

ghost use Rattle.fc_cert.specs.Laws.{BackedAnswersAreCertified, CertificatesAreRead, CertificatesAreTrue, NumbersAreTold, ReadingComesToOneEnd, WrittenCertificatesAreShort};

/// Bytes are read as a content exactly where they are a certificate with it.
pub fn certificates_are_read()
    ensures { CertificatesAreRead }
{}

/// Reading comes to one end: no bytes have two contents, or two faults, or a content and a fault.
pub fn reading_comes_to_one_end()
    ensures { ReadingComesToOneEnd }
{}

/// What bytes that are a certificate of a position and a claim claim is true, in plain lists of moves.
pub fn certificates_are_true()
    ensures { CertificatesAreTrue }
{}

/// What is written of a backed answer whose moves win, and can be written, is a certificate of its claim.
pub fn backed_answers_are_certified()
    ensures { BackedAnswersAreCertified }
{}

/// A certificate has at most 1 GiB, 1,073,741,824 bytes.
pub fn numbers_are_told()
    ensures { NumbersAreTold }
{}

/// What is written of a backed answer of few moves, whose table lists at most 14,000,000 classes, is no longer than what is read:
/// 1,040,002,021 bytes at most.
pub fn written_certificates_are_short()
    ensures { WrittenCertificatesAreShort }
{}
