// Slices that are long enough, and numbers that fit together.
ghost use Rattle.std.specs.Prelude.{true, ◌≡◌, ◌≤◌, ◌<◌, length};
ghost use Rattle.accept.specs.Tables.{at_most, holds, all_below, monotone, ascends, all_ascend, contiguous};
ghost use Rattle.accept.specs.Tables.{number_at, numbers_below, starts_monotone, links_ascend, ranges_contiguous};

use crate::listed::Listed;

// Whether a count is within its limit.
pub fn at_most(n: usize, limit: usize) -> bool
    ensures { result ≡ at_most n limit }
{
    n <= limit
}

// Whether a slice of length len holds n entries of `each` places, however large the numbers are.
pub fn holds(len: usize, n: usize, each: usize) -> bool
    ensures { result ≡ holds len n each }
{
    each == 0 || n <= len / each
}

// Whether s has n numbers or more and each of the first n is below bound.
pub fn numbers_below<N: Listed<u32>>(s: N, n: usize, bound: usize) -> bool
    ensures { result ≡ numbers_below (N.items s) n bound }
{
    n <= s.count() && all_below(s, n, bound)
}

// Whether starts has n + 1 places or more, and the first n + 1 begin at 0, never fall and end at
// `end`.
pub fn starts_monotone<N: Listed<u32>>(starts: N, n: usize, end: usize) -> bool
    ensures { result ≡ starts_monotone (N.items starts) n end }
{
    n < starts.count() && monotone(starts, n, end)
}

// Whether the starts of n rows rise from 0 to count, links has count places or more, and the links
// of each row strictly ascend.
pub fn links_ascend<N: Listed<u32>>(starts: N, n: usize, links: N, count: usize) -> bool
    ensures { result ≡ links_ascend (N.items starts) n (N.items links) count }
{
    starts_monotone(starts, n, count)
        && count <= links.count()
        && all_ascend(starts, n, links, count)
}

// Whether firsts and counts have n ranges or more, and the first n follow one another from 0 to
// `end`: each begins where the one before it ended.
pub fn ranges_contiguous<N: Listed<u32>>(firsts: N, counts: N, n: usize, end: usize) -> bool
    ensures { result ≡ ranges_contiguous (N.items firsts) (N.items counts) n end }
{
    n <= firsts.count() && n <= counts.count() && contiguous(firsts, counts, n, end)
}

// Whether each of the first n numbers of s is below bound.
fn all_below<N: Listed<u32>>(s: N, n: usize, bound: usize) -> bool
    requires { n ≤ length (N.items s) }
    ensures { result ≡ all_below (number_at (N.items s)) n bound }
{
    let mut ok = true;
    for k in 0..n.min(s.count()) {
        ok &= wide(number(s, k)) < bound;
    }
    ok
}

// Whether starts 0 to n begin at 0, never fall and end at `end`.
fn monotone<N: Listed<u32>>(starts: N, n: usize, end: usize) -> bool
    requires { n < length (N.items starts) }
    ensures { result ≡ monotone (number_at (N.items starts)) n end }
{
    let mut ok = true;
    for i in 1..starts.count().min(n + 1) {
        ok &= number(starts, i - 1) <= number(starts, i);
    }
    (number(starts, 0) == 0) & ok & (wide(number(starts, n)) == end)
}

// Whether the links from place a up to place b strictly ascend.
fn ascends<N: Listed<u32>>(links: N, a: u32, b: u32) -> bool
    requires a_le_b { a ≤ b }
    requires b_in_bounds { b ≤ length (N.items links) }
    ensures { result ≡ ascends (number_at (N.items links)) a b }
{
    let mut ok = true;
    for j in wide(a) + 1..wide(b).min(links.count()) {
        ok &= number(links, j - 1) < number(links, j);
    }
    ok
}

// Whether the links of each of n rows strictly ascend.
fn all_ascend<N: Listed<u32>>(starts: N, n: usize, links: N, count: usize) -> bool
    requires n_in_bounds { n < length (N.items starts) }
    requires count_value { monotone (number_at (N.items starts)) n count ≡ true }
    requires count_in_bounds { count ≤ length (N.items links) }
    ensures { result ≡ all_ascend (number_at (N.items starts)) (number_at (N.items links)) n }
{
    let mut ok = true;
    for i in 0..n {
        ok &= ascends(links, number(starts, i), number(starts, i + 1));
    }
    ok
}

// Whether the first n ranges follow one another from 0 to `end`.
fn contiguous<N: Listed<u32>>(firsts: N, counts: N, n: usize, end: usize) -> bool
    requires n_in_bounds { n ≤ length (N.items firsts) }
    requires n_in_bounds_2 { n ≤ length (N.items counts) }
    ensures { result ≡ contiguous (number_at (N.items firsts)) (number_at (N.items counts)) n end }
{
    let mut ok = true;
    let mut edge = 0;
    for c in 0..n {
        let first = wide(number(firsts, c));
        ok &= first == edge;
        edge = first + wide(number(counts, c));
    }
    ok & (edge == end)
}

// Number k of a list, 0 past the last.
fn number<N: Listed<u32>>(s: N, k: usize) -> u32
    ensures { result ≡ number_at (N.items s) k }
{
    s.item(k).unwrap_or(0)
}

// The same number, as an index or a count.
// Kept: the library has no `From` from u32 to usize, and `as usize` needs brackets before `<`, so that it is
// no plainer.
pub fn wide(x: u32) -> usize
    ensures { result ≡ x }
{
    x as usize
}
