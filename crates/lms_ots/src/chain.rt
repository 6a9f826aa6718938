ghost use Rattle.std.specs.Prelude.{◌≡◌, ℕ, List, ◌+◌, ◌-◌, ◌*◌, ◌≤◌, ◌++◌, length, take, drop};
ghost use Rattle.lms_ots.specs.Chain.{chain, step};
ghost use Rattle.lms_ots.specs.Digits.{u16str, u32str};

use crate::bytes::write_at;
use crate::coefficients::Dig;
use sha2::{Digest, Sha256};

/// The input of a chain step (RFC 8554, section 4.3): the identifier in 16 bytes, the leaf in four,
/// the number of the chain in two, the number of the step in one, and an element.
pub(crate) type Input = [u8; 55];

// Where the element stands.
const ELEMENT: usize = 23;

// The input of the chains under one identifier and leaf.
#[tactic(auto, unfolding(crate::specs::Digits::u32str))]
pub(crate) fn input_of(id: &[u8; 16], q: u32) -> Input
    ensures { take 20 result ≡ id.now ++ u32str q }
{
    let mut input = [0u8; 55];
    write_at(&mut input, 0, id);
    write_at(&mut input, 16, &q.to_be_bytes());
    input
}

// Sets the number of the chain and the element that the next step is taken from.
#[tactic(auto, unfolding(crate::specs::Digits::u16str))]
pub(crate) fn start_chain(input: &mut Input, i: u16, element: &[u8])
    requires { length element.now ≡ 32 }
    ensures leaf { take 20 input.new ≡ take 20 input.old }
    ensures name { take 22 input.new ≡ take 20 input.old ++ u16str i }
    ensures element { drop 23 input.new ≡ element.now }
{
    write_at(input, 20, &i.to_be_bytes());
    write_at(input, ELEMENT, element);
}

fn put_element(input: &mut Input, element: &Dig)
    ensures leaf { take 20 input.new ≡ take 20 input.old }
    ensures name { take 22 input.new ≡ take 22 input.old }
    ensures element { drop 23 input.new ≡ element.now }
{
    write_at(input, ELEMENT, element);
}

pub(crate) fn element(input: &Input) -> &[u8]
    ensures value { result.now ≡ drop 23 input.now }
    ensures long { length result.now ≡ 32 }
{
    &input[ELEMENT..]
}

// Step `j` of the chain that the input names.
#[tactic(auto, unfolding(crate::specs::Chain::step))]
fn advance(input: &mut Input, j: u8)
    ensures leaf { take 20 input.new ≡ take 20 input.old }
    ensures name { take 22 input.new ≡ take 22 input.old }
    ensures element { drop 23 input.new ≡ step (take 22 input.old) j (drop 23 input.old) }
{
    input[22] = j;
    let next = Sha256::digest(&*input);
    put_element(input, &next);
}

// The secret that the seed gives for chain `i`.
pub(crate) fn derive(input: &mut Input, i: u16, seed: &Dig)
    ensures leaf { take 20 input.new ≡ take 20 input.old }
    ensures name { take 22 input.new ≡ take 20 input.old ++ u16str i }
    ensures element { drop 23 input.new ≡ step (take 20 input.old ++ u16str i) 0xff seed.now }
{
    start_chain(input, i, seed);
    advance(input, 0xff);
}

// The steps from `first` up to and without `last`.
pub(crate) fn run_chain(input: &mut Input, first: u8, last: u8)
    requires { first ≤ last }
    ensures leaf { take 20 input.new ≡ take 20 input.old }
    ensures name { take 22 input.new ≡ take 22 input.old }
    ensures element { drop 23 input.new ≡ chain (take 22 input.old) first (last - first) (drop 23 input.old) }
{
    for j in first..last {
        advance(input, j);
    }
}
