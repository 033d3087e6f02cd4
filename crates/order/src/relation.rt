// An order of roles answers one question: is role a at or below role b?
ghost use Rattle.std.specs.Prelude.{◌≡◌, ℕ, ◌<◌, ◌≤◌, Bool, true};
ghost use Rattle.order.specs.Laws.{Lawful};

// The roles are the codes below COUNT, and TOP is the role that every role is at or below. Beside each constant stands a
// ghost member of its name, by which clauses speak of it.
pub trait Order {
    const COUNT: u32;

    const TOP: u32;

    ghost COUNT: { ℕ };

    ghost TOP: { ℕ };

    // what the question means: a fixed relation on codes
    ghost below: { Self → ℕ → ℕ → Bool };

    // Any two numbers may be asked about.
    fn at_or_below(&self, a: u32, b: u32) -> bool
        ensures answer { result ≡ below self.now a b };

    ghost few: { COUNT ≤ 64 };

    ghost inside: { TOP < COUNT };

    // a code outside is at or below nothing, and nothing is at or below it
    ghost within: { (s : Self) (a b : ℕ) → below s a b ≡ true → (a < COUNT) × (b < COUNT) };

    ghost reflexive: { (s : Self) (a : ℕ) → a < COUNT → below s a a ≡ true };

    ghost transitive: { (s : Self) (a b c : ℕ) → below s a b ≡ true → below s b c ≡ true → below s a c ≡ true };

    ghost topmost: { (s : Self) (a : ℕ) → a < COUNT → below s a TOP ≡ true };

    // the same as one record, which lemmas over any order take
    ghost lawful: { (s : Self) → Lawful COUNT TOP (below s) };
}
