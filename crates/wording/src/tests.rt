// Sums of money of each size, and padded ones.
use crate::days::DaysInWords;
use crate::money::Money;
use std::test::Fail;
use values::claim_days::ClaimDays;

// What the sum is written as.
fn written(rt: &HostRuntime, cents: i64) -> Result<String, Fail> {
    let sum = Money(cents);
    Ok(format!(in rt.alloc(); "{sum}")?)
}

#[test]
fn sums_of_each_size(rt: HostRuntime) -> Result<(), Fail> {
    assert_eq!(rt; written(&rt, 0)?.as_str(), "0.00");
    assert_eq!(rt; written(&rt, 5)?.as_str(), "0.05");
    assert_eq!(rt; written(&rt, -8_000)?.as_str(), "-80.00");
    assert_eq!(rt; written(&rt, 99_999)?.as_str(), "999.99");
    assert_eq!(rt; written(&rt, 100_000)?.as_str(), "1,000.00");
    assert_eq!(rt; written(&rt, -125_000)?.as_str(), "-1,250.00");
    assert_eq!(rt; written(&rt, 100_005_001)?.as_str(), "1,000,050.01");
    assert_eq!(rt;
        written(&rt, i64::MAX)?.as_str(),
        "92,233,720,368,547,758.07"
    );
    assert_eq!(rt;
        written(&rt, i64::MIN)?.as_str(),
        "-92,233,720,368,547,758.08"
    );
    Ok(())
}

#[test]
fn padded_sums(rt: HostRuntime) -> Result<(), Fail> {
    let sum = Money(-125_000);
    let padded = format!(in rt.alloc(); "{sum:>11}|{sum:<11}|{sum:>3}")?;
    assert_eq!(rt; padded.as_str(), "  -1,250.00|-1,250.00  |-1,250.00");
    let least = Money(i64::MIN);
    let padded = format!(in rt.alloc(); "{least:>28}")?;
    assert_eq!(rt; padded.as_str(), "  -92,233,720,368,547,758.08");
    Ok(())
}

#[test]
fn days_in_words(rt: HostRuntime) -> Result<(), Fail> {
    let claim_days = ClaimDays::new(20_210_101, 20_210_514, 20_210_520).map_err(
        |_| "no claim days",
    )?;
    let days = DaysInWords(claim_days);
    let words = format!(in rt.alloc(); "{days}")?;
    assert_eq!(rt;
        words.as_str(),
        "insured from 2021-01-01, loss on 2021-05-14, reported on 2021-05-20"
    );
    Ok(())
}
