// Powers of ten, and how many digits a number has.
ghost use Rattle.std.specs.Prelude.{◌≡◌, ℕ, suc, ◌*◌, ◌/◌, ◌^◌, ◌<◌, ◌≤◌};

const POWERS: [u64; 20] = [
    1,
    10,
    100,
    1_000,
    10_000,
    100_000,
    1_000_000,
    10_000_000,
    100_000_000,
    1_000_000_000,
    10_000_000_000,
    100_000_000_000,
    1_000_000_000_000,
    10_000_000_000_000,
    100_000_000_000_000,
    1_000_000_000_000_000,
    10_000_000_000_000_000,
    100_000_000_000_000_000,
    1_000_000_000_000_000_000,
    10_000_000_000_000_000_000,
];

// How many digits a number of so many bits has at least: the digits of 2^(bits - 1).
const LEAST_DIGITS: [u8; 65] = [
    0, 1, 1, 1, 1, 2, 2, 2, 3, 3, 3, 4, 4, 4, 4, 5, 5, 5, 6, 6, 6, 7, 7, 7, 7, 8, 8, 8, 9, 9, 9,
    10, 10, 10, 10, 11, 11, 11, 12, 12, 12, 13, 13, 13, 13, 14, 14, 14, 15, 15, 15, 16, 16, 16, 16,
    17, 17, 17, 18, 18, 18, 19, 19, 19, 19,
];

// For each k up to 15 a factor that divides by 10^k: with the shift s it is 2^(62 + s) / 10^k, rounded up.
const FACTORS: [u64; 16] = [
    4_611_686_018_427_387_904,
    7_378_697_629_483_820_647,
    5_902_958_103_587_056_518,
    4_722_366_482_869_645_214,
    7_555_786_372_591_432_342,
    6_044_629_098_073_145_874,
    4_835_703_278_458_516_699,
    7_737_125_245_533_626_719,
    6_189_700_196_426_901_375,
    4_951_760_157_141_521_100,
    7_922_816_251_426_433_760,
    6_338_253_001_141_147_008,
    5_070_602_400_912_917_606,
    8_112_963_841_460_668_170,
    6_490_371_073_168_534_536,
    5_192_296_858_534_827_629,
];

const SHIFTS: [u8; 16] = [0, 4, 7, 10, 14, 17, 20, 24, 27, 30, 34, 37, 40, 44, 47, 50];

// n / 10^k, by a product and shifts.
#[inline(always)]
#[tactic(auto, using(crate::proofs::TableRules::divided_at))]
pub fn divided(n: u64, k: u32) -> u64
    requires small { n < 2 ^ 62 }
    requires few { k ≤ 15 }
    ensures { result ≡ n / 10 ^ k }
{
    let product = (n * 4) as u128 * FACTORS[k as usize] as u128;
    (product >> 64) as u64 >> SHIFTS[k as usize]
}

// 10^k.
#[tactic(auto, using(crate::proofs::TableRules::power_at))]
pub fn power(k: u32) -> u64
    requires { k ≤ 19 }
    ensures { result ≡ 10 ^ k }
{
    POWERS[k as usize]
}

// How many digits a number of so many bits has at least: those of 2^(bits - 1), and 0 for no bits. Both clauses hold of that count alone.
#[tactic(auto, using(crate::proofs::TableRules::least_reached, crate::proofs::TableRules::least_past))]
fn least_digits(bits: u32) -> u32
    requires { bits ≤ 64 }
    ensures reached { 10 ^ result ≤ 5 * 2 ^ bits }
    ensures past { 2 ^ bits < 2 * 10 ^ result }
    ensures few { result ≤ 19 }
{
    LEAST_DIGITS[bits as usize] as u32
}

// How many digits n has: none for 0.
#[tactic(auto, using(crate::proofs::TableRules::under_next, crate::proofs::TableRules::from_last))]
pub fn digits(n: u64) -> u32
    ensures under { n < 10 ^ result }
    ensures least { (k : ℕ) → result ≡ suc k → 10 ^ k ≤ n }
    ensures few { result ≤ 20 }
{
    let least = least_digits(64 - n.leading_zeros());
    if n < power(least) { least } else { least + 1 }
}
