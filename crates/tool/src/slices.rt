// Parts of slices. Every function is total: a part that would pass the end is empty.
pub(crate) fn first<T>(s: &[T], n: usize) -> &[T] {
    if n <= s.len() { &s[..n] } else { &s[..0] }
}

// The first n words, each of which is two numbers of the slice.
pub(crate) fn words(s: &[u64], n: usize) -> &[u64] {
    if n <= s.len() / 2 {
        &s[..n * 2]
    } else {
        &s[..0]
    }
}
