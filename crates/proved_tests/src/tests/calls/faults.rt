use std::alloc::{AllocError, Global};
use std::test::Fail;
use step_model::{Cause, Fault};

// The numbers that the program writes.
const NUMBERS: &[(Cause, u8)] = &[
    (Cause::Memory, 1),
    (Cause::Read, 2),
    (Cause::Write, 3),
    (Cause::Byte, 10),
    (Cause::Name, 11),
    (Cause::LeftOut, 12),
    (Cause::Arguments, 13),
    (Cause::Probability, 14),
    (Cause::Target, 15),
    (Cause::Count, 16),
    (Cause::SameQubit, 17),
    (Cause::Block, 18),
    (Cause::RepeatZero, 19),
    (Cause::Number, 20),
    (Cause::Depth, 21),
    (Cause::RecordBeforeStart, 22),
    (Cause::Steps, 23),
    (Cause::Records, 24),
    (Cause::Detectors, 25),
    (Cause::DemName, 40),
    (Cause::DemArguments, 41),
    (Cause::DemTarget, 42),
    (Cause::DemBlock, 43),
    (Cause::DemNumber, 44),
    (Cause::DemRepeatZero, 45),
    (Cause::DemDepth, 46),
    (Cause::DemSteps, 47),
    (Cause::CoinCount, 50),
    (Cause::FaultNumber, 51),
    (Cause::Shots, 52),
];

fn has_text(alloc: Global, cause: Cause) -> Result<bool, AllocError> {
    let text = format!(in alloc; "{cause}")?;
    Ok(!text.is_empty())
}

#[test]
fn numbers_and_texts(rt: HostRuntime) -> Result<(), Fail> {
    for (cause, number) in NUMBERS {
        assert!(rt;
            cause.number() == *number && has_text(rt.alloc(), *cause)?,
            "of {cause:?}"
        );
    }
    Ok(())
}

fn is_told(alloc: Global, fault: Fault, wanted: &str) -> Result<bool, AllocError> {
    let text = format!(in alloc; "{fault}")?;
    Ok(text.as_str() == wanted)
}

#[test]
fn lines(rt: HostRuntime) {
    let cause = Cause::Depth;
    let nowhere = "blocks stand too deep inside one another";
    assert!(rt;
        matches!(
            is_told(rt.alloc(), Fault { cause, line: 0 }, nowhere),
            Ok(true)
        )
    );
    let somewhere = "line 70: blocks stand too deep inside one another";
    assert!(rt;
        matches!(
            is_told(rt.alloc(), Fault { cause, line: 70 }, somewhere),
            Ok(true)
        )
    );
}
