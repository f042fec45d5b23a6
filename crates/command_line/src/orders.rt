//! The order that a subcommand and its options give.
use clap::ArgMatches;
use step_model::Order;

/// The order that a command line gives, whose texts are handed on as their bytes. None where a number isn't one.
pub(crate) fn order_of<'a>(matches: &ArgMatches<'a>) -> Option<Order<'a>> {
    let (name, given) = matches.subcommand()?;
    match name {
        "run" => Some(run_in(given)),
        "sample" => sample_in(given),
        "detect" => detect_in(given),
        "analyze" => Some(Order::Analyze),
        "faults" => Some(Order::Faults),
        "predict" => Some(predict_in(given)),
        _ => None,
    }
}

fn run_in<'a>(given: &ArgMatches<'a>) -> Order<'a> {
    Order::Run {
        coins: coins_in(given),
        faults: list_in(given, "faults"),
    }
}

fn sample_in<'a>(given: &ArgMatches<'a>) -> Option<Order<'a>> {
    let (shots, seed) = draws_in(given)?;
    Some(Order::Sample { shots, seed })
}

fn detect_in<'a>(given: &ArgMatches<'a>) -> Option<Order<'a>> {
    let (shots, seed) = draws_in(given)?;
    Some(Order::Detect { shots, seed })
}

fn predict_in<'a>(given: &ArgMatches<'a>) -> Order<'a> {
    Order::Predict {
        lines: list_in(given, "lines"),
    }
}

/// The coins that are given.
fn coins_in<'a>(given: &ArgMatches<'a>) -> Option<&'a [u8]> {
    given.get_str("coins").map(|text| text.as_bytes())
}

/// How many shots are asked for, and the seed.
fn draws_in(given: &ArgMatches<'_>) -> Option<(u64, u64)> {
    let shots = number_in(given.get_str("shots")?)?;
    let seed = number_in(given.get_str("seed").unwrap_or("0"))?;
    Some((shots, seed))
}

/// The list of numbers that an option gives, empty where it isn't given.
fn list_in<'a>(given: &ArgMatches<'a>, name: &str) -> &'a [u8] {
    given.get_str(name).unwrap_or("").as_bytes()
}

/// The number that a text of digits writes, where it is below 2^64.
fn number_in(text: &str) -> Option<u64> {
    if !text.bytes().all(|byte| byte.is_ascii_digit()) {
        return None;
    }
    text.parse().ok()
}
