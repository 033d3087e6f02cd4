// How many edges were found.
ghost use Rattle.std.specs.Prelude.{◌≡◌, count_by};
ghost use Rattle.edges.specs.Rows.{flagged_count};

fn count_set(flags: &[bool]) -> usize
    ensures answer { result ≡ count_by (λ flag. flag) flags.now }
{
    flags.iter().filter(|flag| **flag).count()
}

// How many of the flags are set.
#[tactic(auto, using(edges::proofs::FlaggedRows::count_flagged))]
pub fn count_found(flags: &[bool]) -> usize
    ensures answer { result ≡ flagged_count flags.now }
{
    count_set(flags)
}
