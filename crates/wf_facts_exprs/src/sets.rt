// Sets of facts of a list, which hold 512 places.

ghost use Rattle.std.specs.Prelude.{slice_index, ◌+◌, ◌≡◌, ℕ, ◌<◌, ◌≤◌, ◌&&◌, ◌||◌, not, [], nat_eq, replicate, true, false};
ghost use Rattle.wf_facts_exprs.specs.Sets.{member, members, ArePlaces, IsSetOf, unmarked};

/// A set of places of a list: bit `i mod 64` of word `i / 64` is that of place `i`.
#[derive(Clone, Copy)]
pub struct FactSet {
    pub words: [u64; 8],
}

impl FactSet {
    /// The set of no place.
    pub fn new() -> FactSet
        ensures none { IsSetOf result.words [] }
        ensures words { result.words ≡ replicate 8 0 }
    {
        FactSet { words: [0; 8] }
    }

    /// Whether place `i` is in the set.
    pub fn has(&self, i: usize) -> bool
        requires { i < 512 }
        ensures { result ≡ member self.now.words i }
    {
        (self.words[i / 64] >> (i % 64)) & 1 == 1
    }

    /// Adds place `i`.
    pub fn insert(&mut self, i: usize)
        requires { i < 512 }
        ensures { (k : ℕ) → k < 512 → member self.new.words k ≡ (nat_eq k i || member self.old.words k) }
    {
        self.words[i / 64] |= 1 << (i % 64);
    }

    /// Adds place `i` where it is present.
    pub fn put(&mut self, i: usize, present: bool)
        requires { i < 512 }
        ensures { (k : ℕ) → k < 512 → member self.new.words k ≡ ((nat_eq k i && present) || member self.old.words k) }
    {
        if present {
            self.insert(i);
        }
    }

    /// The first place of the set from `from` on; where none is below `n`, a number that isn't below it.
    pub fn first(&self, from: usize, n: usize) -> usize
        requires { n ≤ 512 }
        ensures start { from ≤ result }
        ensures before { (k : ℕ) → from ≤ k → k < result → member self.now.words k ≡ false }
        ensures here { result < n → member self.now.words result ≡ true }
    {
        let mut i = from;
        while i < n {
            let word = self.words[i / 64] >> (i % 64);
            if word != 0 {
                return i + word.trailing_zeros() as usize;
            }
            i += 64 - i % 64;
        }
        i
    }

    /// The same of the places that another set doesn't have.
    pub fn first_but(&self, gone: &FactSet, from: usize, n: usize) -> usize
        requires { n ≤ 512 }
        ensures start { from ≤ result }
        ensures before { (k : ℕ) → from ≤ k → k < result → (member self.now.words k && not (member gone.now.words k)) ≡ false }
        ensures here { result < n → (member self.now.words result && not (member gone.now.words result)) ≡ true }
    {
        let mut i = from;
        while i < n {
            let word = (self.words[i / 64] & !gone.words[i / 64]) >> (i % 64);
            if word != 0 {
                return i + word.trailing_zeros() as usize;
            }
            i += 64 - i % 64;
        }
        i
    }

    /// Adds the places of another set.
    pub fn join(&mut self, other: &FactSet)
        ensures { (k : ℕ) → k < 512 → member self.new.words k ≡ (member self.old.words k || member other.now.words k) }
    {
        for w in 0..8 {
            self.words[w] |= other.words[w];
        }
    }

    /// The places that this set has once one has left the list, and those behind it have moved one down.
    pub(crate) fn closed_up(&self, place: usize) -> FactSet
        requires { place < 512 }
        ensures before { (k : ℕ) → k < place → member result.words k ≡ member self.now.words k }
        ensures behind { (k : ℕ) → place ≤ k → k < 511 → member result.words k ≡ member self.now.words (k + 1) }
        ensures last { member result.words 511 ≡ false }
    {
        let mut words = self.words;
        let first = place / 64;
        for w in first..8 {
            words[w] = (self.words[w] >> 1) | (self.word_behind(w) << 63);
        }
        let below = (1 << (place % 64)) - 1;
        words[first] = (self.words[first] & below) | (words[first] & !below);
        FactSet { words }
    }

    // The word behind a word; 0 behind the last one.
    fn word_behind(&self, w: usize) -> u64
        requires { w < 8 }
        ensures { result ≡ slice_index self.now.words (w + 1) }
    {
        if w < 7 { self.words[w + 1] } else { 0 }
    }

    /// The places among the first `n` that this set has once those of `dropped` are gone and each of the others has moved
    /// to its place in `places`.
    pub fn moved(&self, dropped: &FactSet, places: &[u16; 512], n: usize) -> FactSet
        requires few { n ≤ 512 }
        requires places { ArePlaces dropped.now.words places.now n }
        ensures { IsSetOf result.words (unmarked (members dropped.now.words n) (members self.now.words n)) }
    {
        let mut moved = FactSet::new();
        let mut from = 0;
        while from < n {
            let i = self.first(from, n);
            if i >= n {
                return moved;
            }
            from = i + 1;
            if dropped.has(i) {
                continue;
            }
            moved.insert(places[i] as usize);
        }
        moved
    }

    /// The places among the first `n` that this set has once those of `gone` have left, and the others have closed up.
    pub fn left(&self, gone: &FactSet, n: usize) -> FactSet
        requires few { n ≤ 512 }
        ensures { IsSetOf result.words (unmarked (members gone.now.words n) (members self.now.words n)) }
    {
        self.moved(gone, &places_left(gone, n), n)
    }
}

/// The place to which each of the first `n` moves once those of `dropped` are gone.
pub(crate) fn places_left(dropped: &FactSet, n: usize) -> [u16; 512]
    requires { n ≤ 512 }
    ensures { ArePlaces dropped.now.words result n }
{
    let mut places = [0; 512];
    let mut stays = 0;
    for i in 0..n {
        places[i] = stays;
        if dropped.has(i) {
            continue;
        }
        stays += 1;
    }
    places
}
