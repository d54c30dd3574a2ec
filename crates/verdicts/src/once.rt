// A run over one event.
ghost use Rattle.bits.specs.Bits.{whole};
ghost use Rattle.verdicts.specs.Once.{RanOnce};

use crate::{Course, Reaction};
use bits::Bits;

// The reaction to one event: `run` runs over it, with a slice each for the signals and the states that come of it.
pub fn run_once<F: FnOnce(&[u64], &mut [u64], &mut [u64]) -> Course>(
    event: Bits,
    run: F,
) -> Reaction
    requires { F.IsAlwaysCallable run }
    ensures { RanOnce F.FnOnce run (whole event) result }
{
    let mut events = [0u64; bits::WORDS];
    let mut signals = [0u64; bits::WORDS];
    let mut states = [0u64; bits::WORDS];
    event.write(&mut events, 0);
    let c = run(&events, &mut signals, &mut states);
    crate::reaction_of(c, Bits::read(&signals, 0))
}
