// The compression function of SHA-256 (FIPS 180-4, 6.2.2): the 64 rounds over a block of 16 words, with the schedule in a ring of 16 words.
#![tactic(auto)]

ghost use Rattle.std.specs.Prelude.{◌≡◌, ◌+◌, ◌%◌, ◌^◌, ◌≤◌, ◌<◌, length, set};
ghost use Rattle.hashing.specs.Sha256 as def;
ghost use Rattle.hash_laws.specs.Ring.{ring_word, Turned};
ghost use Rattle.compression.specs.Meaning.{state_of};

// Eight words: the hash value, and the working variables.
#[derive(Clone, Copy)]
pub struct State {
    pub a: u32,
    pub b: u32,
    pub c: u32,
    pub d: u32,
    pub e: u32,
    pub f: u32,
    pub g: u32,
    pub h: u32,
}

#[tactic(auto, unfolding(hashing::specs::Sha256::choose, hashing::specs::Sha256::complement))]
fn choose(x: u32, y: u32, z: u32) -> u32
    ensures { result ≡ def.choose x y z }
{
    (x & y) ^ (!x & z)
}

#[tactic(auto, unfolding(hashing::specs::Sha256::majority))]
fn majority(x: u32, y: u32, z: u32) -> u32
    ensures { result ≡ def.majority x y z }
{
    (x & y) ^ (x & z) ^ (y & z)
}

#[tactic(auto, unfolding(hashing::specs::Sha256::big_sigma0, hashing::specs::Sha256::rotr))]
fn big_sigma0(x: u32) -> u32
    ensures { result ≡ def.big_sigma0 x }
{
    x.rotate_right(2) ^ x.rotate_right(13) ^ x.rotate_right(22)
}

#[tactic(auto, unfolding(hashing::specs::Sha256::big_sigma1, hashing::specs::Sha256::rotr))]
fn big_sigma1(x: u32) -> u32
    ensures { result ≡ def.big_sigma1 x }
{
    x.rotate_right(6) ^ x.rotate_right(11) ^ x.rotate_right(25)
}

#[tactic(auto, unfolding(hashing::specs::Sha256::small_sigma0, hashing::specs::Sha256::rotr, hashing::specs::Sha256::shr))]
fn small_sigma0(x: u32) -> u32
    ensures { result ≡ def.small_sigma0 x }
{
    x.rotate_right(7) ^ x.rotate_right(18) ^ (x >> 3)
}

#[tactic(auto, unfolding(hashing::specs::Sha256::small_sigma1, hashing::specs::Sha256::rotr, hashing::specs::Sha256::shr))]
fn small_sigma1(x: u32) -> u32
    ensures { result ≡ def.small_sigma1 x }
{
    x.rotate_right(17) ^ x.rotate_right(19) ^ (x >> 10)
}

// One round.
fn turn(s: State, k: u32, w: u32) -> State
    ensures { state_of result ≡ def.turn (state_of s) k w }
{
    let t1 = s
        .h
        .wrapping_add(big_sigma1(s.e))
        .wrapping_add(choose(s.e, s.f, s.g))
        .wrapping_add(k)
        .wrapping_add(w);
    let t2 = big_sigma0(s.a).wrapping_add(majority(s.a, s.b, s.c));
    State {
        a: t1.wrapping_add(t2),
        b: s.a,
        c: s.b,
        d: s.c,
        e: s.d.wrapping_add(t1),
        f: s.e,
        g: s.f,
        h: s.g,
    }
}

// The schedule's next word, into place i of the ring.
fn extend(w: &mut [u32], i: usize) -> u32
    requires { (length w.old ≡ 16) × (i < 16) }
    ensures value { result ≡ ring_word w.old i }
    ensures w_after { w.new ≡ set w.old i result }
{
    let x = small_sigma1(w[(i + 14) % 16]);
    let y = small_sigma0(w[(i + 1) % 16]);
    let r = x
        .wrapping_add(w[(i + 9) % 16])
        .wrapping_add(y)
        .wrapping_add(w[i]);
    w[i] = r;
    r
}

// One round with the schedule's next word, whose place in the ring is i.
fn next(s: State, k: u32, w: &mut [u32], i: usize) -> State
    requires { (length w.old ≡ 16) × (i < 16) }
    ensures result_value { state_of result ≡ def.turn (state_of s) k (ring_word w.old i) }
    ensures w_after { w.new ≡ set w.old i (ring_word w.old i) }
{
    let x = extend(w, i);
    turn(s, k, x)
}

// Four rounds from number t on, the first of them at place i of the ring: single rounds in a loop take a fifth more time.
fn four(s: State, k: &[u32], t: usize, w: &mut [u32], i: usize) -> State
    requires k_len { (length k.now ≡ 64) × (length w.old ≡ 16) }
    requires t_value { (t % 16 ≡ i) × ((16 ≤ t) × ((t + 4 ≤ 64) × (i ≤ 12))) }
    ensures { Turned k.now t (t + 4) (state_of s) w.old (state_of result) w.new }
{
    let a = next(s, k[t], w, i);
    let b = next(a, k[t + 1], w, i + 1);
    let c = next(b, k[t + 2], w, i + 2);
    next(c, k[t + 3], w, i + 3)
}

// The sums of two states' words.
#[tactic(auto, unfolding(hashing::specs::Sha256::joined))]
fn joined(s: State, t: State) -> State
    ensures { state_of result ≡ def.joined (state_of s) (state_of t) }
{
    State {
        a: t.a.wrapping_add(s.a),
        b: t.b.wrapping_add(s.b),
        c: t.c.wrapping_add(s.c),
        d: t.d.wrapping_add(s.d),
        e: t.e.wrapping_add(s.e),
        f: t.f.wrapping_add(s.f),
        g: t.g.wrapping_add(s.g),
        h: t.h.wrapping_add(s.h),
    }
}

// All rounds over the 16 words of a block, which become the ring.
fn rounds(s: State, k: &[u32], w: &mut [u32]) -> State
    requires { (length k.now ≡ 64) × (length w.old ≡ 16) }
    ensures { state_of result ≡ def.turns (state_of s) k.now (def.schedule 48 w.old) }
{
    let mut v = s;
    for t in 0..16 {
        v = turn(v, k[t], w[t]);
    }
    for q in 4..16 {
        v = four(v, k, 4 * q, w, 4 * q % 16);
    }
    v
}

// The constants K. The caller keeps them in a local and lends them as a slice.
#[tactic(auto, unfolding(hashing::specs::Sha256::constants))]
pub fn constants() -> [u32; 64]
    ensures { result ≡ def.constants }
{
    [
        0x428a2f98, 0x71374491, 0xb5c0fbcf, 0xe9b5dba5, 0x3956c25b, 0x59f111f1, 0x923f82a4,
        0xab1c5ed5, 0xd807aa98, 0x12835b01, 0x243185be, 0x550c7dc3, 0x72be5d74, 0x80deb1fe,
        0x9bdc06a7, 0xc19bf174, 0xe49b69c1, 0xefbe4786, 0x0fc19dc6, 0x240ca1cc, 0x2de92c6f,
        0x4a7484aa, 0x5cb0a9dc, 0x76f988da, 0x983e5152, 0xa831c66d, 0xb00327c8, 0xbf597fc7,
        0xc6e00bf3, 0xd5a79147, 0x06ca6351, 0x14292967, 0x27b70a85, 0x2e1b2138, 0x4d2c6dfc,
        0x53380d13, 0x650a7354, 0x766a0abb, 0x81c2c92e, 0x92722c85, 0xa2bfe8a1, 0xa81a664b,
        0xc24b8b70, 0xc76c51a3, 0xd192e819, 0xd6990624, 0xf40e3585, 0x106aa070, 0x19a4c116,
        0x1e376c08, 0x2748774c, 0x34b0bcb5, 0x391c0cb3, 0x4ed8aa4a, 0x5b9cca4f, 0x682e6ff3,
        0x748f82ee, 0x78a5636f, 0x84c87814, 0x8cc70208, 0x90befffa, 0xa4506ceb, 0xbef9a3f7,
        0xc67178f2,
    ]
}

#[tactic(auto, unfolding(hashing::specs::Sha256::initial))]
pub fn initial() -> State
    ensures { state_of result ≡ def.initial }
{
    State {
        a: 0x6a09e667,
        b: 0xbb67ae85,
        c: 0x3c6ef372,
        d: 0xa54ff53a,
        e: 0x510e527f,
        f: 0x9b05688c,
        g: 0x1f83d9ab,
        h: 0x5be0cd19,
    }
}

// A block of 16 words taken into the hash value. The words' places are used as the ring.
pub fn compress(s: State, k: &[u32], w: &mut [u32]) -> State
    requires { (k.now ≡ def.constants) × (length w.old ≡ 16) }
    ensures { state_of result ≡ def.compress (state_of s) w.old }
{
    let t = rounds(s, k, w);
    joined(s, t)
}
