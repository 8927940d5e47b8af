// A part of an input's domain.
ghost use Rattle.std.specs.Prelude.{◌≡◌};
ghost use Rattle.shrinking.specs.Parts.{narrowed};
ghost use Rattle.explaining.specs.Explaining.{Cuttable};

use rules::Matryoshka;

// t/256 of the stray and of the margin, rounded down.
pub(crate) fn narrowed(t: u64, m: Matryoshka) -> Matryoshka
    requires { Cuttable t m }
    ensures { result ≡ narrowed t m }
{
    Matryoshka {
        middle: m.middle,
        stray: m.stray * t / 256,
        margin: m.margin * t / 256,
    }
}
