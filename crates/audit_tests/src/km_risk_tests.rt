// Tests of `km_risk` with values from outside: those worked out by hand, and the tables that bench/risk_values.py works out with exact
// fractions.
ghost use Rattle.std.specs.Prelude.{◌≡◌};

use irv_base::{GREATEST_GAMMA, GREATEST_LIMIT, MOST_CARDS, MOST_DRAWS};
use km_risk::{Counts, clean_draws, risk};
use std::process::Abort;
use std::str::SplitWhitespace;

fn counts(n0: u32, n1: u32, n2: u32, n3: u32, n4: u32) -> Counts
    ensures { result ≡ record { n0 = n0; n1 = n1; n2 = n2; n3 = n3; n4 = n4 } }
{
    Counts { n0, n1, n2, n3, n4 }
}

#[test]
fn one_draw_of_twelve_cards(rt: HostRuntime) {
    let whole = 1_000_000_000_000_000_000;
    assert_eq!(rt; risk(&Counts::default(), 12, 1, 100), whole);
    assert_eq!(rt;
        risk(&counts(0, 0, 1, 0, 0), 12, 1, 100),
        965_034_965_034_965_035
    );
    assert_eq!(rt;
        risk(&counts(0, 0, 0, 0, 1), 12, 1, 100),
        524_714_828_897_338_404
    );
    assert_eq!(rt; risk(&counts(1, 0, 0, 0, 0), 12, 1, 100), whole);
    // The factors are 6 and 138/263. The cap comes after both.
    assert_eq!(rt; risk(&counts(1, 0, 0, 0, 1), 12, 1, 100), whole);
}

#[test]
fn five_clean_draws_confirm_a_single_card(rt: HostRuntime) {
    assert_eq!(rt;
        risk(&counts(0, 0, 4, 0, 0), 1, 1, 100),
        88_518_543_815_313_162
    );
    assert_eq!(rt;
        risk(&counts(0, 0, 5, 0, 0), 1, 1, 100),
        48_282_842_081_079_907
    );
}

#[test]
fn clean_draws_of_a_plan(rt: HostRuntime) {
    assert_eq!(rt; clean_draws(1_000, 100, 100, 50_000), Some(70));
    assert_eq!(rt; clean_draws(1_000, 1_000, 100, 50_000), Some(5));
    assert_eq!(rt; clean_draws(1, 1, 100, 50_000), None);
    assert_eq!(rt; clean_draws(12, 1, 100, 50_000), None);
    assert_eq!(rt; clean_draws(1, 1, 100, 600_000), Some(1));
}

fn next_number(rt: &impl Abort, fields: &mut SplitWhitespace<'_>) -> u32 {
    fields
        .next()
        .expect(rt, "a field")
        .parse::<u32>()
        .expect(rt, "a number")
}

#[test]
fn risks_of_the_table(rt: HostRuntime) {
    for line in RISKS.lines() {
        let mut fields = line.split_whitespace();
        let n0 = next_number(&rt, &mut fields);
        let n1 = next_number(&rt, &mut fields);
        let n2 = next_number(&rt, &mut fields);
        let n3 = next_number(&rt, &mut fields);
        let n4 = next_number(&rt, &mut fields);
        let cards = next_number(&rt, &mut fields);
        let margin = next_number(&rt, &mut fields);
        let gamma = next_number(&rt, &mut fields);
        let draws = u64::from(n0) + u64::from(n1) + u64::from(n2) + u64::from(n3) + u64::from(n4);
        assert!(rt; draws <= u64::from(MOST_DRAWS));
        assert!(rt; 1 <= margin);
        assert!(rt; margin <= cards);
        assert!(rt; cards <= MOST_CARDS);
        assert!(rt; 1 <= gamma);
        assert!(rt; gamma <= GREATEST_GAMMA);
        let found = risk(&counts(n0, n1, n2, n3, n4), cards, margin, gamma);
        assert_eq!(rt;
            fields.next().expect(&rt, "a risk").parse::<u64>(),
            Ok(found),
            "{line}"
        );
    }
}

#[test]
fn clean_draws_of_the_table(rt: HostRuntime) {
    for line in CLEAN_DRAWS.lines() {
        let mut fields = line.split_whitespace();
        let cards = next_number(&rt, &mut fields);
        let margin = next_number(&rt, &mut fields);
        let gamma = next_number(&rt, &mut fields);
        let limit = next_number(&rt, &mut fields);
        assert!(rt; 1 <= margin);
        assert!(rt; margin <= cards);
        assert!(rt; cards <= MOST_CARDS);
        assert!(rt; 1 <= gamma);
        assert!(rt; gamma <= GREATEST_GAMMA);
        assert!(rt; 1 <= limit);
        assert!(rt; limit <= GREATEST_LIMIT);
        let found = clean_draws(cards, margin, gamma, limit);
        assert_eq!(rt;
            fields.next().expect(&rt, "clean draws").parse::<u32>().ok(),
            found,
            "{line}"
        );
    }
}

// Counts of d from 0 to 4, cards, margin, gamma, and the printed risk.
const RISKS: &str = "\
0 0 0 0 0 12 1 100 1000000000000000000
1 0 0 0 0 12 1 100 1000000000000000000
3 0 0 0 0 1 1 1 1000000000000000000
2 0 0 0 0 10000000 10000000 500 1000000000000000000
1 0 0 0 0 10000000 1 500 1000000000000000000
0 1 0 0 0 12 1 100 1000000000000000000
0 3 0 0 0 1 1 1 1000000000000000000
0 2 0 0 0 10000000 10000000 500 1000000000000000000
0 1 0 0 0 10000000 1 500 1000000000000000000
0 0 1 0 0 12 1 100 965034965034965035
0 0 3 0 0 1 1 1 125374999750374626
0 0 2 0 0 10000000 10000000 500 444444444444444445
0 0 1 0 0 10000000 1 500 999999974999999375
0 0 0 1 0 12 1 100 679802955665024631
0 0 0 3 0 1 1 1 37185283840921841
0 0 0 2 0 10000000 10000000 500 250000000000000000
0 0 0 1 0 10000000 1 500 799999975999999520
0 0 0 0 1 12 1 100 524714828897338404
0 0 0 0 3 1 1 1 15695382777334992
0 0 0 0 2 10000000 10000000 500 160000000000000000
0 0 0 0 1 10000000 1 500 666666644444444075
1 0 0 0 1 12 1 100 1000000000000000000
0 1 0 0 1 12 1 100 872417426359430118
1 1 1 1 1 1000 100 100 1000000000000000000
1 1 9 9 9 1000 100 100 546686021650218
2 0 0 0 9 1000 990 1 1000000000000000000
3 0 0 0 40 5000 1200 1 719675840223
0 7 80 3 0 40000 9000 100 1968968427696854
0 0 100000 0 0 10000000 1 1 995022409382170759
0 0 100000 0 0 10000000 1000 100 15501969500334948
0 0 100000 0 0 10000000 2500 500 1929323232167804
0 0 0 0 100000 10000000 1 500 2
0 100000 0 0 0 10000000 10000000 500 1000000000000000000
100000 0 0 0 0 10000000 1 1 1000000000000000000
20000 20000 20000 20000 20000 10000000 5000000 250 1000000000000000000
2 1 99990 3 4 10000000 12345 100 119880
0 30 99950 15 5 9999999 7654 77 74884140182
1 0 99999 0 0 10000000 4000 100 346049098434
2 0 31 0 1 94 6 322 1000000000000000000
2 3 315 1 0 969 43 246 191761909585644187
0 2 135 0 0 63 8 272 6203572132064894
1 0 141 0 0 9999995 416667 251 411736238889183566
2 1 141 0 2 99994 4167 353 549315869897535075
0 2 39 0 2 999980 142855 336 115584257800142376
0 1 147 3 2 9999980 400000 40 9129387569557091
1 3 385 0 2 9942 356 486 59525463830119651
0 1 180 3 2 999987 43478 246 14373830987516506
2 0 123 1 1 999959 47618 220 572033722262659456
2 2 165 1 1 9999990 357143 18 1000000000000000000
1 0 159 0 2 99959 3703 239 141947765688048133
2 3 330 1 0 941 34 261 384936287614581802
1 3 77 0 1 9999954 1666660 57 54413583856866494
1 1 62 2 0 99994 6250 137 777342096589364763
2 3 99 0 1 911 152 494 65783489811221210
0 3 49 3 2 985 40 65 192265863800841233
0 1 216 0 0 99948 7140 105 2464316088337527
0 3 117 2 0 9978 499 419 297826606914367440
2 1 11 2 0 99985 16665 457 1000000000000000000
0 0 432 1 0 54 2 4 217586362309580
1 0 27 2 0 9999968 1999994 384 234159067124547374
2 1 117 1 2 9945 498 349 415005056476075890
2 2 136 1 0 52 3 460 753070472649656332
1 0 549 0 1 9999970 322580 211 3609892810965189
0 1 231 2 0 99999 5883 430 19334020290711032
1 1 57 2 2 9999930 999994 397 129267189823281881
1 2 115 0 2 99951 8330 342 94549261900425540
1 1 118 3 1 999913 33331 271 285548646061971365
0 3 7 1 0 99955 24989 14 1000000000000000000
";

// Cards, margin, gamma, the limit in millionths, and the number of clean draws, or none.
const CLEAN_DRAWS: &str = "\
1000 100 100 50000 70
1000 1000 100 50000 5
1 1 100 50000 none
12 1 100 50000 none
1 1 100 600000 1
1 1 100 545454 none
1 1 100 545455 1
5 5 100 48282 none
5 5 100 48283 5
2000 1 1 999999 1
2000 1 500 999499 5
10000000 10000000 1 1 20
10000000 10000000 500 1 35
10000000 1000 100 50000 71896
10000000 718 100 50000 none
10000000 719 100 50000 99995
10000000 1 1 999999 21
10000000 1 1 990000 none
100001 72 100 50000 9984
250000 3125 37 10000 789
";
