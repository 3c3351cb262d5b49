//! The rules of table S at lengths that no short line has, alone and before a later one; the others are in
//! `checks/step-rules.jsonl`.

use step_rules::{StepFacts, StepKind, check_step, ends_operation};
use tags::{Code, Plan, Rule, RuleTable};

const SEALING: Plan = Plan::Gcm {
    seal: true,
    tag: 16,
};

const SEALING_BLOCKS: Plan = Plan::Ecb {
    seal: true,
    padded: false,
};

type Broken = Option<(u8, Code)>;

const NOT_OWN: Broken = Some((1, Code::InvalidOperationHandle));

const BUSY: Broken = Some((2, Code::OperationBusy));

const TOO_LONG: Broken = Some((3, Code::TooMuchData));

const NO_TOKEN: Broken = Some((5, Code::KeyUserNotAuthenticated));

const NO_AAD: Broken = Some((6, Code::InvalidTag));

const TOO_MUCH: Broken = Some((7, Code::InvalidInputLength));

/// Whether an operation is the client's own, whether it is busy, and whether its key has ended.
type State = (bool, bool, bool);

const IDLE: State = (true, false, false);

const OTHERS: State = (false, false, false);

const KEYLESS: State = (true, false, true);

/// A step; the operation's state and plan; the lengths of the additional data and the text that were admitted, of the input
/// and of the signature; and the rule that is broken first.
type Row = (StepKind, State, Plan, [u64; 4], Broken);

/// Lengths that no short line has; the others are in `checks/step-rules.jsonl`.
static ROWS: [Row; 15] = [
    // the operation is open and the client's own
    (StepKind::Text, OTHERS, SEALING, [0, 0, 40_000, 0], NOT_OWN),
    (StepKind::Abort, KEYLESS, SEALING, [0, 0, 40_000, 0], None),
    // no work on it is out
    (
        StepKind::Text,
        (true, true, true),
        SEALING,
        [0, 0, 40_000, 0],
        BUSY,
    ),
    // input and signature
    (StepKind::Text, IDLE, SEALING, [0, 0, 32_768, 32_768], None),
    (StepKind::Text, IDLE, SEALING, [0, 0, 32_769, 0], TOO_LONG),
    (
        StepKind::Text,
        KEYLESS,
        SEALING,
        [0, 0, 32_769, 0],
        TOO_LONG,
    ),
    (StepKind::Text, IDLE, SEALING, [0, 0, 16, 32_769], TOO_LONG),
    (
        StepKind::Text,
        IDLE,
        SEALING,
        [0, 1_048_576, 16, 32_769],
        TOO_LONG,
    ),
    // additional data
    (StepKind::Aad, IDLE, SEALING, [0, 1_048_576, 16, 0], NO_AAD),
    // all input together
    (StepKind::Text, IDLE, SEALING, [0, 1_048_560, 16, 0], None),
    (
        StepKind::Text,
        IDLE,
        SEALING,
        [0, 1_048_561, 16, 0],
        TOO_MUCH,
    ),
    (
        StepKind::Text,
        IDLE,
        SEALING,
        [1_048_000, 561, 16, 0],
        TOO_MUCH,
    ),
    (
        StepKind::Aad,
        IDLE,
        SEALING,
        [1_048_561, 0, 16, 0],
        TOO_MUCH,
    ),
    (
        StepKind::Text,
        IDLE,
        SEALING,
        [u64::MAX, u64::MAX, 16, 0],
        TOO_MUCH,
    ),
    (
        StepKind::Last,
        IDLE,
        SEALING_BLOCKS,
        [1_048_000, 570, 7, 0],
        TOO_MUCH,
    ),
];

/// Whether the step breaks this rule first.
fn breaks(facts: &StepFacts, want: Broken) -> bool {
    match (check_step(facts), want) {
        (Ok(()), None) => true,
        (Err((rule, code)), Some((number, expected))) => {
            rule.table == RuleTable::S && rule.number == number && code == expected
        }
        _ => false,
    }
}

/// What a step breaks where no token was shown, by what it breaks besides: an abort asks for none, and the rules up to the
/// fourth come before.
fn where_it_waits(kind: StepKind, want: Broken) -> Broken {
    match want {
        Some((number, _)) if number <= 4 => want,
        _ if kind == StepKind::Abort => want,
        _ => NO_TOKEN,
    }
}

/// The facts of a row, where a token was shown.
fn facts_of(row: &Row) -> StepFacts {
    let (kind, state, plan, lengths, _) = row;
    StepFacts {
        kind: *kind,
        own: state.0,
        busy: state.1,
        input: lengths[2],
        signature: lengths[3],
        ended: state.2,
        waiting: false,
        plan: *plan,
        aad: lengths[0],
        text: lengths[1],
    }
}

#[test]
fn each_rule_breaks_alone_and_before_a_later_one(rt: HostRuntime) {
    for (number, row) in ROWS.iter().enumerate() {
        let facts = facts_of(row);
        let alone = breaks(&facts, row.4);
        let waiting = StepFacts {
            waiting: true,
            ..facts
        };
        let waits = breaks(&waiting, where_it_waits(row.0, row.4));
        assert_eq!(rt; (alone, waits), (true, true), "in row {number}");
    }
}

/// Whether a rule of the table ends the operation.
fn ends(table: RuleTable, number: u8) -> bool {
    ends_operation(Rule { table, number })
}

#[test]
fn four_rules_end_the_operation(rt: HostRuntime) {
    let mut other = None;
    for number in 0..=255u8 {
        let four = number == 4 || number >= 6 && number <= 8;
        if (ends(RuleTable::S, number), ends(RuleTable::B, number)) != (four, false) {
            other = Some(number);
        }
    }
    assert_eq!(rt; other, None);
}
