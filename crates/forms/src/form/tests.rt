ghost use Rattle.std.specs.Prelude.{◌≤◌, ◌<◌, ◌↔◌, IsTrue};
ghost use Rattle.fixdec.specs.Ends.{InCap};

use super::*;
use enclose::arith::Arith;
use std::process::Abort;

// a centre, the coefficients of symbols 0 and 31, and a radius
type Parts = (i128, i128, i128, i128);

fn val(centre: i128, first: i128, last: i128, radius: i128) -> Step<Parts> {
    Step::Val((centre, first, last, radius))
}

fn is_raw(z: i128) -> bool
    ensures { IsTrue result ↔ InCap z }
{
    -CAP <= z && z <= CAP
}

// the form plus k times symbol i
fn with_symbol<T: Arith>(rt: &impl Abort, form: T, i: usize, k: i128) -> T
    requires scale { T.SCALE ≤ 15 }
    requires index { i < 32 }
{
    let zero = T::of_span(Span { lo: 0, hi: 0 });
    assert!(rt; is_raw(k));
    let size = k.abs();
    let term = match zero.symbol(i, Span { lo: size, hi: size }) {
        Step::Val(term) => term,
        _ => panic!(rt; "a term past the cap"),
    };
    let sum = if 0 <= k {
        form.plus(term)
    } else {
        form.minus(term)
    };
    match sum {
        Step::Val(sum) => sum,
        _ => panic!(rt; "a form past the cap"),
    }
}

fn form<T: Arith>(rt: &impl Abort, parts: Parts) -> T
    requires { T.SCALE ≤ 15 }
{
    let (centre, first, last, radius) = parts;
    assert!(rt; is_raw(centre) && is_raw(radius) && 0 <= radius);
    let middle = T::of_span(Span {
        lo: centre,
        hi: centre,
    });
    let form = with_symbol(rt, with_symbol(rt, middle, 0, first), 31, last);
    match form.widen(radius) {
        Step::Val(form) => form,
        _ => panic!(rt; "a form past the cap"),
    }
}

// what each operation answers on two forms
fn answers<T: Arith>(a: T, b: T) -> [Step<T>; 11]
    requires { T.SCALE ≤ 15 }
{
    [
        a.plus(b),
        a.minus(b),
        a.times(b),
        a.square(),
        a.over(b),
        a.root(),
        a.widen(7),
        a.shift(3),
        a.shift(-2),
        a.clip(b.hull()),
        a.symbol(31, Span { lo: 2, hi: 3 }),
    ]
}

fn check_row<const S: u32>(rt: &impl Abort, a: Parts, b: Parts, want: [Step<Parts>; 11])
    requires { S ≤ 15 }
{
    let a: Form<S> = form(rt, a);
    let answers = answers(a, form(rt, b));
    for i in 0..11 {
        let want = match want[i] {
            Step::Val(parts) => Step::Val(form(rt, parts)),
            Step::Empty => Step::Empty,
            Step::Lost(why) => Step::Lost(why),
        };
        assert!(rt; answers[i] == want, "answer {i}");
    }
}

fn parts<const S: u32>(rt: &impl Abort, answer: Step<Form<S>>) -> Parts {
    match answer {
        Step::Val(f) => (
            f.centre as i128,
            f.coefficient(0),
            f.coefficient(31),
            f.radius as i128,
        ),
        _ => panic!(rt; "no value"),
    }
}

#[test]
fn a_deviation_cancels(rt: HostRuntime) {
    let k: Form<6> = form(&rt, (2_000_000, 100_000, 0, 0));
    assert_eq!(rt; parts(&rt, k.minus(k)), (0, 0, 0, 0));
    assert_eq!(rt; parts(&rt, k.over(k)), (1_000_000, 0, 0, 0));
    assert_eq!(rt; parts(&rt, k.times(k)), (4_000_000, 400_000, 0, 10_000));
    assert_eq!(rt;
        k.hull(),
        Span {
            lo: 1_900_000,
            hi: 2_100_000
        }
    );
}

#[test]
fn quotients_past_the_cap(rt: HostRuntime) {
    for (a, b) in [
        ((CAP, 0, 0, 0), (-999_999, 0, 0, 0)),
        ((10, 0, 0, 1_000_000_000_000), (10, 9, 0, 0)),
    ] {
        let a: Form<6> = form(&rt, a);
        assert!(rt; a.over(form(&rt, b)) == Step::Lost(Why::Range));
    }
}

#[test]
fn answers_at_six(rt: HostRuntime) {
    check_row::<6>(
        &rt,
        (2_000_000, 100_000, 0, 0),
        (1_500_000, -40_000, 25_000, 300),
        [
            val(3_500_000, 60_000, 25_000, 300),
            val(500_000, 140_000, -25_000, 300),
            val(3_000_000, 70_000, 50_000, 7_130),
            val(4_000_000, 400_000, 0, 10_000),
            val(1_333_333, 102_222, -22_223, 5_947),
            val(1_414_213, 35_355, 0, 456),
            val(2_000_000, 100_000, 0, 7),
            val(2_000, 100, 0, 0),
            val(200_000_000, 10_000_000, 0, 0),
            Step::Empty,
            val(2_000_000, 100_000, 2, 1),
        ],
    );
    check_row::<6>(
        &rt,
        (3, -2, 1, 4),
        (-2, 1, 0, 0),
        [
            val(1, -1, 1, 4),
            val(5, -3, 1, 4),
            val(-1, 0, -1, 4),
            val(0, -1, 0, 4),
            val(-1_500_000, 250_000, -500_000, 4_750_000),
            val(1_581, 0, 0, 1_582),
            val(3, -2, 1, 11),
            val(0, -1, 0, 4),
            val(300, -200, 100, 400),
            val(3, -2, 1, 4),
            val(3, -2, 3, 5),
        ],
    );
    check_row::<6>(
        &rt,
        (999_999_999_999_999_997, 1, -1, 1),
        (1_000_000, 0, 0, 0),
        [
            Step::Lost(Why::Range),
            val(999_999_999_998_999_997, 1, -1, 1),
            val(999_999_999_999_999_997, 1, -1, 1),
            Step::Lost(Why::Range),
            val(999_999_999_999_999_997, 1, -1, 1),
            val(999_999_999_999, 0, -1, 5),
            Step::Lost(Why::Range),
            val(999_999_999_999_999, 0, -1, 4),
            Step::Lost(Why::Range),
            Step::Empty,
            Step::Lost(Why::Range),
        ],
    );
}

#[test]
fn answers_at_nine(rt: HostRuntime) {
    check_row::<9>(
        &rt,
        (-1_234_567_891, 3_456_789, -987_654, 12_345),
        (-2_718_281_828, -1_618_033, 3_141_592, 271),
        [
            val(-3_952_849_719, 1_838_756, 2_153_938, 12_616),
            val(1_483_713_937, 5_074_822, -4_129_246, 12_616),
            val(3_355_903_463, -7_398_956, -1_193_787, 55_109),
            val(1_524_157_877, -8_535_282, 2_438_651, 50_348),
            val(454_172_145, -1_542_024, 888_236, 8_862),
            Step::Empty,
            val(-1_234_567_891, 3_456_789, -987_654, 12_352),
            val(-1_234_568, 3_456, -988, 16),
            val(-123_456_789_100, 345_678_900, -98_765_400, 1_234_500),
            Step::Empty,
            val(-1_234_567_891, 3_456_789, -987_652, 12_346),
        ],
    );
    check_row::<9>(
        &rt,
        (-5, 1, -1, 2),
        (7, -4, 2, 1),
        [
            val(2, -3, 1, 3),
            val(-12, 5, -3, 3),
            val(-1, 0, -1, 4),
            val(0, -1, 0, 4),
            Step::Lost(Why::Zero),
            Step::Empty,
            val(-5, 1, -1, 9),
            val(-1, 0, -1, 4),
            val(-500, 100, -100, 200),
            Step::Empty,
            val(-5, 1, 1, 3),
        ],
    );
}

#[test]
fn answers_at_twelve(rt: HostRuntime) {
    check_row::<12>(
        &rt,
        (5_000_000_000_001, -70_000_000_003, 11_000_000_007, 999_999),
        (-3_333_333_333_333, 70_000_000_001, -1, 1),
        [
            val(1_666_666_666_668, -2, 11_000_000_006, 1_000_000),
            val(
                8_333_333_333_334,
                -140_000_000_004,
                11_000_000_008,
                1_000_000,
            ),
            val(
                -16_666_666_666_669,
                583_333_333_348,
                -36_666_666_695,
                5_673_403_339,
            ),
            val(
                25_000_000_000_010,
                -700_000_000_031,
                110_000_000_070,
                6_571_161_996,
            ),
            val(
                -1_500_000_000_001,
                -10_500_000_000,
                -3_300_000_002,
                296_322_783,
            ),
            val(
                2_236_067_977_500,
                -15_652_475_844,
                2_459_674_776,
                74_179_908,
            ),
            val(
                5_000_000_000_001,
                -70_000_000_003,
                11_000_000_007,
                1_000_006,
            ),
            val(5_000_000_000, -70_000_001, 11_000_000, 1_003),
            val(
                500_000_000_000_100,
                -7_000_000_000_300,
                1_100_000_000_700,
                99_999_900,
            ),
            Step::Empty,
            val(
                5_000_000_000_001,
                -70_000_000_003,
                11_000_000_009,
                1_000_000,
            ),
        ],
    );
}

#[test]
fn answers_at_fifteen(rt: HostRuntime) {
    check_row::<15>(
        &rt,
        (
            1_414_213_562_373_095,
            31_415_926_535,
            -27_182_818_284,
            161_803,
        ),
        (
            1_732_050_807_568_877,
            -31_415_926_535,
            57_721_566_490,
            141_421,
        ),
        [
            val(3_146_264_369_941_972, 0, 30_538_748_206, 303_224),
            val(
                -317_837_245_195_782,
                62_831_853_070,
                -84_904_384_774,
                303_224,
            ),
            val(
                2_449_489_742_783_177,
                9_985_151_545,
                34_548_599_810,
                5_703_622,
            ),
            val(
                1_999_999_999_999_999,
                88_857_658_760,
                -76_884_620_562,
                3_891_483,
            ),
            val(
                816_496_580_927_726,
                32_947_603_435,
                -42_904_214_845,
                4_063_907,
            ),
            val(
                1_189_207_115_002_721,
                13_208_770_002,
                -11_428_967_226,
                323_260,
            ),
            val(
                1_414_213_562_373_095,
                31_415_926_535,
                -27_182_818_284,
                161_810,
            ),
            val(1_414_213_562_373, 31_415_926, -27_182_819, 165),
            val(
                141_421_356_237_309_500,
                3_141_592_653_500,
                -2_718_281_828_400,
                16_180_300,
            ),
            Step::Empty,
            val(
                1_414_213_562_373_095,
                31_415_926_535,
                -27_182_818_282,
                161_804,
            ),
        ],
    );
    check_row::<15>(
        &rt,
        (0, 400_000_000_000_000_000, -599_999_999_999_999_999, 1),
        (-CAP, 0, 0, 0),
        [
            Step::Lost(Why::Range),
            Step::Lost(Why::Range),
            Step::Lost(Why::Range),
            Step::Lost(Why::Range),
            val(0, -400_000_000_000_000, 599_999_999_999_999, 2),
            val(15_811_388_300_841_897, 0, 0, 15_811_388_300_841_897),
            Step::Lost(Why::Range),
            val(0, 400_000_000_000_000, -600_000_000_000_000, 2),
            Step::Lost(Why::Range),
            val(0, 400_000_000_000_000_000, -599_999_999_999_999_999, 1),
            val(0, 400_000_000_000_000_000, -599_999_999_999_999_997, 2),
        ],
    );
}
