// A guess at the place of an id among a few names. The guess is made from the look of the id (its first four bytes and its last four),
// times a factor. Several factors are tried until no two names share a guess. A wrong guess only costs time, so the table has no invariant.
ghost use Rattle.std.specs.Prelude.{◌<◌, ◌≤◌, length};
ghost use Rattle.irv_base.specs.declared.limits.TheConstants.{ROOM};
ghost use Rattle.ballots.specs.declared.guesses.TheConstants.{GUESSES};

use ballot_ids::number_of_4;
use irv_base::Name;

// The number of guesses. With this many, a factor for which no two names share one is soon found.
const GUESSES: usize = 256;

// The number of factors to try. Each is the one before it times the first, which is odd.
const TRIES: usize = 200;

const FIRST_FACTOR: u64 = 0x9E37_79B9_7F4A_7C15;

// A value that is no name's place
const NOWHERE: u8 = u8::MAX;

/// For each look that an id may have, the place of a name that has it. This is a guess, so the caller compares.
#[derive(Drop)]
pub struct Guesses {
    factor: u64,
    places: [u8; GUESSES],
}

// What an id looks like: its first bytes and its last, and the number of bytes if there are few.
#[inline(always)]
fn look(id: &[u8]) -> u64 {
    let n = id.len();
    if n >= 4 {
        return u64::from(number_of_4(id, 0)) | u64::from(number_of_4(id, n - 4)) << 32;
    }
    if n == 0 {
        return 0;
    }
    let bytes = u64::from(id[0]) | u64::from(id[n / 2]) << 8 | u64::from(id[n - 1]) << 16;
    bytes | (n as u64) << 24
}

// The guess for an id: the highest bits of its look times the factor.
#[inline(always)]
fn guess_of(factor: u64, id: &[u8]) -> usize
    ensures { result < GUESSES }
{
    (look(id).wrapping_mul(factor) >> 56) as usize
}

impl Guesses {
    // No guesses, with this factor.
    fn nothing(factor: u64) -> Guesses {
        Guesses {
            factor,
            places: [NOWHERE; GUESSES],
        }
    }

    // Puts in the places of these names, and returns whether no two share a guess.
    fn put(&mut self, names: &[Name]) -> bool
        requires { length names.now ≤ ROOM }
    {
        let mut apart = true;
        for i in 0..names.len() {
            let guess = guess_of(self.factor, names[i].bytes());
            apart = apart && self.places[guess] == NOWHERE;
            self.places[guess] = i as u8;
        }
        apart
    }

    /// The places of these names.
    pub fn of(names: &[Name]) -> Guesses
        requires { length names.now ≤ ROOM }
    {
        let mut factor = FIRST_FACTOR;
        for _ in 0..TRIES {
            let mut guesses = Guesses::nothing(factor);
            if guesses.put(names) {
                return guesses;
            }
            factor = factor.wrapping_mul(FIRST_FACTOR);
        }
        let mut guesses = Guesses::nothing(factor);
        guesses.put(names);
        guesses
    }

    /// Where the id may be.
    #[inline(always)]
    pub fn place(&self, id: &[u8]) -> usize {
        usize::from(self.places[guess_of(self.factor, id)])
    }
}
