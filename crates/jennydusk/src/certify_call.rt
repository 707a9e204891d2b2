// Certificates for programs in other languages: a text is certified at a label, and the certificate goes to a buffer of
// 64-bit words that the caller lends.
ghost use Rattle.std.specs.Prelude.{◌≤◌, ◌≡◌, length};
ghost use Rattle.model.specs.Record.{lent};
ghost use Rattle.certify.specs.Certified.{certificate_of};
ghost use Rattle.record_calls.specs.RecordCalls.{left};
ghost use Rattle.jennydusk.specs.Calls.{certificate_span, holding_certificate, certify_call};

use causes::DONE;
use certify::{Break, certify, numbers_of};
use labels::Bits;
use load_calls::counted;
use record_calls::{SHORT_BUFFER, is_short};

// How many words a certificate takes: its cause, its tick and its place.
const CERTIFICATE_SPAN: usize = 3;

// Writes the certificate.
fn keep_certificate(found: Option<Break>, buffer: &mut [u64])
    requires { certificate_span ≤ length buffer.old }
    ensures { buffer.new ≡ holding_certificate (certificate_of found) buffer.old }
{
    buffer[..CERTIFICATE_SPAN].copy_from_slice(&numbers_of(found));
}

// Certifies a text at a label: the certificate goes to its buffer, and words and labels hold what the run to the end leaves.
#[unsafe(no_mangle)]
#[tactic(auto, unfolding(crate::specs::Calls::certify_call, record_calls::specs::RecordCalls::is_short))]
pub extern "C" fn jennydusk_certify(
    label: Bits,
    text: &[u8],
    words: &mut [u32],
    labels: &mut [Bits],
    certificate: &mut [u64],
) -> u64
    ensures { left result certificate.new words.new labels.new ≡ certify_call label text.now (lent words.old labels.old) certificate.old }
{
    if is_short(certificate, CERTIFICATE_SPAN) {
        return SHORT_BUFFER;
    }
    match certify(label, text, words, labels) {
        Ok(found) => {
            keep_certificate(found, certificate);
            counted(DONE, 0)
        }
        Err(refusal) => counted(refusal.cause.number(), refusal.line),
    }
}
