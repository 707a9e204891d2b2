// Labels: by whom a value is trusted (integrity) and whose secrets it may hold (confidentiality), with the rules by
// which they flow. A label is a byte, its integrity in the high half and its confidentiality in the low half, one bit
// for each principal. Every rule works on whole bytes, with neither branch nor table. Usable without the machine.
//
// Flow, join and meet turn the bits of the integrity first. What is then set is a restriction, in either half: a join has
// those of both labels, a meet those that they share, and a label flows to one that has all of its own.
#![tactic(auto)]

ghost use Rattle.std.specs.Prelude.{◌≡◌, eqb};
ghost use Rattle.principals.specs.Principals.{may_go};
ghost use Rattle.labels.specs.Label.{restrictions, lacking, flows, join, meet, reflection, uncompromised, valid_pair, lowest, highest, may_raise, may_relabel};

// A label as a number.
pub type Bits = u8;

#[derive(Clone, Copy, PartialEq, Eq)]
pub struct Label(pub Bits);

// Every number below this one is a label.
pub const LABEL_COUNT: u32 = 256;

// The bits of a label's integrity.
const INTEGRITY: Bits = 0xF0;
// The bits of its confidentiality.
const CONFIDENTIALITY: Bits = 0x0F;
// A label is this times its integrity, and its confidentiality.
const HALF: Bits = 0x10;

// Whether what is under these restrictions may go where those others are lacking: it has none of them.
pub fn may_go(restricted: Bits, lacked: Bits) -> bool
    ensures { result ≡ may_go restricted lacked }
{
    restricted & lacked == 0
}

impl Label {
    // Trusted by all, nobody's secret.
    pub const LOWEST: Label = Label(INTEGRITY);
    // Trusted by none; it may hold everyone's secrets.
    pub const HIGHEST: Label = Label(CONFIDENTIALITY);

    // Its restrictions: a bit for each who doesn't trust it, and for each whose secrets it may hold.
    pub fn restrictions(self) -> Bits
        ensures { result ≡ restrictions self.0 }
    {
        self.0 ^ INTEGRITY
    }

    // The restrictions that it lacks.
    pub fn lacking(self) -> Bits
        ensures { result ≡ lacking self.0 }
    {
        self.0 ^ CONFIDENTIALITY
    }

    // Whether what bears this label may reach what bears `to`: all who trust `to` trust this one, and `to` may hold the
    // secrets of all whose this one may hold.
    pub fn flows_to(self, to: Label) -> bool
        ensures { result ≡ flows self.0 to.0 }
    {
        may_go(self.restrictions(), to.lacking())
    }

    // The lowest label that both this one and `other` flow to.
    pub fn join(self, other: Label) -> Label
        ensures { result.0 ≡ join self.0 other.0 }
    {
        Label((self.restrictions() | other.restrictions()) ^ INTEGRITY)
    }

    // The highest label that flows to both this one and `other`.
    pub fn meet(self, other: Label) -> Label
        ensures { result.0 ≡ meet self.0 other.0 }
    {
        Label((self.restrictions() & other.restrictions()) ^ INTEGRITY)
    }

    // Integrity and confidentiality exchanged.
    pub fn reflection(self) -> Label
        ensures { result.0 ≡ reflection self.0 }
    {
        Label(self.0 % HALF * HALF + self.0 / HALF)
    }

    // Whether all whose secrets this may hold trust it.
    pub fn is_uncompromised(self) -> bool
        ensures { result ≡ uncompromised self.0 }
    {
        self.0 % HALF & (self.0 / HALF) == self.0 % HALF
    }

    // Whether this pc label makes a valid pair with the label `timing`.
    pub fn is_valid_pair(self, timing: Label) -> bool
        ensures { result ≡ valid_pair self.0 timing.0 }
    {
        self.flows_to(timing) & self.is_uncompromised() & timing.is_uncompromised()
    }

    // Whether a value of this label may get the label `to`, further up, where the pc label is `under`.
    pub fn may_raise(self, to: Label, under: Label) -> bool
        ensures { result ≡ may_raise under.0 self.0 to.0 }
    {
        under.flows_to(self) & self.flows_to(to) & to.flows_to(under.reflection())
    }

    // Whether a value of this label may get the label `to`, further down too, where the pc label is `under`.
    pub fn may_relabel(self, to: Label, under: Label) -> bool
        ensures { result ≡ may_relabel under.0 self.0 to.0 }
    {
        under.flows_to(self.meet(to)) & self.is_uncompromised() & to.flows_to(under.reflection())
    }

    // Whether this is the lowest label.
    pub fn is_lowest(self) -> bool
        ensures { result ≡ eqb self.0 lowest }
    {
        self == Label::LOWEST
    }

    // Whether this is the highest label.
    pub fn is_highest(self) -> bool
        ensures { result ≡ eqb self.0 highest }
    {
        self == Label::HIGHEST
    }
}
