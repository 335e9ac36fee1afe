// The kinds of operands, and the numbers that stand for them in tables.
#![tactic(auto)]

ghost use Rattle.std.specs.Prelude.{◌≡◌};
ghost use Rattle.kinds.specs.Numbers.{number_of, kind_with};

// A Qbit parameter, a quantum register or Qbit[I] parameter, a classical register, or a family parameter.
#[derive(Clone, Copy, Debug, PartialEq, Eq)]
pub enum Kind {
    Qubit,
    Quantum,
    Classical,
    Family,
}

// The number of a kind.
impl From<Kind> for u16 {
    ghost from_gives = { λ k n. n ≡ number_of k };

    fn from(k: Kind) -> u16 {
        k as u16
    }
}

// The kind that a number stands for; each number past the last kind's stands for that one.
impl From<u16> for Kind {
    ghost from_gives = { λ n k. k ≡ kind_with n };

    fn from(n: u16) -> Kind {
        match n {
            0 => Kind::Qubit,
            1 => Kind::Quantum,
            2 => Kind::Classical,
            _ => Kind::Family,
        }
    }
}
