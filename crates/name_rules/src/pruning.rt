//! Names of a signal's choices without what they all begin with.
ghost use Rattle.std.specs.Prelude.{◌≡◌, ◌<◌, ◌≤◌, ℕ, nat_le, map, drop, take, length, bytes_eq, if◌then◌else◌};
ghost use Rattle.std.specs.List.{list_all, AllByRecursion};
ghost use Rattle.name_rules.specs.Pruning.{pruned};
ghost use Rattle.name_rules.specs.Fronts.{front_len, loses, most_lost};

use cg_out::Text;

/// How many bytes each of these names loses: none where they are not pruned or there is but one.
pub fn lost_front(names: &[Text], prune: bool) -> usize
    ensures front { map (drop result) names.now ≡ (if prune then pruned names.now else names.now) }
    ensures within { AllByRecursion (λ x. result ≤ length x) names.now }
{
    if !prune {
        return 0;
    }
    match names {
        [first, _, ..] => most_lost(first.bytes(), names),
        _ => 0,
    }
}

/// The most bytes that all names can lose, where they begin as the first one does.
fn most_lost(first: &[u8], names: &[Text]) -> usize
    ensures { result ≡ most_lost first.now names.now }
{
    let mut n = shared_front(first, names);
    while n > 0 && !all_lose(names, n) {
        n -= 1;
    }
    n
}

fn all_lose(names: &[Text], n: usize) -> bool
    requires { 0 < n }
    ensures { result ≡ list_all (loses n) names.now }
{
    names.iter().all(|x| loses(x.bytes(), n))
}

/// Whether the name's first bytes, so many, end in `_`, and a byte that is no digit follows.
fn loses(name: &[u8], n: usize) -> bool
    requires { 0 < n }
    ensures { result ≡ loses n name.now }
{
    n < name.len() && name[n - 1] == b'_' && !name[n].is_ascii_digit()
}

/// With how many bytes of the first one all names begin.
fn shared_front(first: &[u8], names: &[Text]) -> usize
    ensures within { result ≤ length first.now }
    ensures shared { (n : ℕ) → n ≤ length first.now
        → list_all (λ x. bytes_eq (take n x) (take n first.now)) names.now ≡ nat_le n result }
{
    let mut shared = first.len();
    for name in names {
        shared = shared.min(common_front(first, name.bytes()));
    }
    shared
}

/// How many bytes two texts begin with alike.
fn common_front(a: &[u8], b: &[u8]) -> usize
    ensures { result ≡ front_len a.now b.now }
{
    let mut n = 0;
    while n < a.len() && n < b.len() && a[n] == b[n] {
        n += 1;
    }
    n
}
