// How many ways there are to choose k of n things. Up to the limit on tapes no number is large, so none is cut off.
pub(crate) fn choose(n: u64, k: u64) -> u64 {
    if k > n {
        return 0;
    }
    let mut ways = 1u64;
    for i in 0..k {
        ways = ways.saturating_mul(n - i) / (i + 1);
    }
    ways
}
