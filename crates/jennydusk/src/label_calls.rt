// The label rules for programs in other languages, each the one of the crate labels. A label passes as its byte.
ghost use Rattle.std.specs.Prelude.{◌≡◌};
ghost use Rattle.labels.specs.Label.{flows, join, meet, reflection, uncompromised, valid_pair};

use labels::{Bits, Label};

// Whether what bears the one label may reach what bears the other.
#[unsafe(no_mangle)]
pub extern "C" fn jennydusk_flows(from: Bits, to: Bits) -> bool
    ensures { result ≡ flows from to }
{
    Label(from).flows_to(Label(to))
}

// The lowest label that both flow to.
#[unsafe(no_mangle)]
pub extern "C" fn jennydusk_join(one: Bits, other: Bits) -> Bits
    ensures { result ≡ join one other }
{
    Label(one).join(Label(other)).0
}

// The highest label that flows to both.
#[unsafe(no_mangle)]
pub extern "C" fn jennydusk_meet(one: Bits, other: Bits) -> Bits
    ensures { result ≡ meet one other }
{
    Label(one).meet(Label(other)).0
}

// Integrity and confidentiality exchanged.
#[unsafe(no_mangle)]
pub extern "C" fn jennydusk_reflection(label: Bits) -> Bits
    ensures { result ≡ reflection label }
{
    Label(label).reflection().0
}

// Whether a label is uncompromised: the paper's sound.
#[unsafe(no_mangle)]
pub extern "C" fn jennydusk_is_sound(label: Bits) -> bool
    ensures { result ≡ uncompromised label }
{
    Label(label).is_uncompromised()
}

// Whether a pc label and a timing label make a valid pair.
#[unsafe(no_mangle)]
pub extern "C" fn jennydusk_is_valid_pair(pc: Bits, timing: Bits) -> bool
    ensures { result ≡ valid_pair pc timing }
{
    Label(pc).is_valid_pair(Label(timing))
}
