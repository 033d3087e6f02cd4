// Rows that are judged one after the other.
ghost use Rattle.std.specs.Prelude.{◌≡◌, ℕ, ◌<◌, Bool, length, IfSome};
ghost use Rattle.scan.specs.Scan.{scan};

// A row that is judged by what it may name, by the rows before it and by its place.
pub trait Judged<Names> {
    // What the rows before leave to be known.
    type Before;

    ghost first: { Self.Before };

    ghost passes: { Names → Self.Before → ℕ → Self → Bool };

    ghost after: { Self.Before → Self → Self.Before };

    fn before_all() -> Self::Before
        ensures answer { result ≡ first };

    fn passes(&self, names: &Names, before: &Self::Before, row: usize) -> bool
        ensures answer { result ≡ passes names.now before.now row self.now };

    // The row is one of those before the next.
    fn note(&self, before: &mut Self::Before)
        ensures after { before.new ≡ after before.old self.now };
}

// A row that asks nothing of the rows before.
pub trait Stands<Names> {
    ghost stands: { Names → ℕ → Self → Bool };

    fn stands(&self, names: &Names, row: usize) -> bool
        ensures answer { result ≡ stands names.now row self.now };
}

impl<Names, T: Stands<Names>> Judged<Names> for T {
    type Before = ();

    ghost first = { tt };

    ghost passes = { λ names before row x. T.stands names row x };

    ghost after = { λ before x. before };

    fn before_all() -> () {}

    fn passes(&self, names: &Names, _before: &(), row: usize) -> bool {
        self.stands(names, row)
    }

    fn note(&self, _before: &mut ()) {}
}

// The first row that does not pass.
pub fn first_fault<Names, T: Judged<Names>>(names: &Names, rows: &[T]) -> Option<usize>
where
    T::Before: Drop,
    ensures answer { result ≡ scan (λ b i x. T.passes names.now b i x) T.after T.first 0 rows.now }
    ensures inside { IfSome result (λ i. i < length rows.now) }
{
    let mut before = T::before_all();
    for (i, row) in rows.iter().enumerate() {
        if !row.passes(names, &before, i) {
            return Some(i);
        }
        row.note(&mut before);
    }
    None
}
