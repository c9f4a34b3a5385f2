// The calls of the C interfaces, but for playing and reading of the ADV7195.
ghost use Rattle.std.specs.Prelude.{◌≤◌};

use crate::context::Context;
use crate::forms::Operation;
use crate::print;
use adv7194_answers::play_numbers::PlayAnswer;
use answers::plan_numbers::PlanAnswer;
use records::tokens;
use records::tokens::Tokens;
use std::io;

// The most settings of a record, and where they begin among its tokens.
const MOST_SETTINGS: usize = 64;

const FIRST_SETTING: usize = 2;

// How many numbers a set of settings is.
const SETTINGS: usize = 49;

// What lent settings hold before the house setting is asked for.
const BEFORE: i32 = 77;

// The most characters of a pair in a record, and where they begin among the settings.
const MOST_CHARACTERS: usize = 8;

const FIRST_CHARACTER: usize = 2;

// The settings of a record: those after the first number.
pub(crate) fn settings(tokens: Tokens) -> [i32; 64] {
    let held = tokens.held;
    let mut settings = [0i32; 64];
    for (setting, token) in settings.iter_mut().zip(&held[FIRST_SETTING..]) {
        *setting = tokens::signed(*token);
    }
    settings
}

// How many settings a record has with so many tokens before its lists, at most as many as are held.
pub(crate) fn setting_count(numbers: usize) -> usize
    ensures { result ≤ 64 }
{
    if numbers < FIRST_SETTING {
        return 0;
    }
    if MOST_SETTINGS + FIRST_SETTING < numbers {
        return MOST_SETTINGS;
    }
    numbers - FIRST_SETTING
}

// What planning answers, and the lent plan after it.
fn planned(rt: &impl Print, answer: PlanAnswer, plan: &[u8]) -> io::Result<()> {
    print::verdict(rt, answer.refusal, answer.field)?;
    print::decimal(rt, answer.length)?;
    print::decimal(rt, answer.transactions)?;
    print::decimal(rt, answer.bus_bytes)?;
    print::bytes(rt, plan)
}

// Planning, for the ADV7194 or the ADV7195.
pub(crate) fn plan(
    rt: &impl Print,
    settings: &[i32],
    image: &[u8],
    plan: &mut [u8],
    context: Context,
) -> io::Result<()> {
    if context.operation == Operation::Plan7195 {
        let answer = adv7195_c::adv7195_plan(image, settings, context.first, plan);
        return planned(rt, answer, plan);
    }
    let answer = adv7194_c::adv7194_plan(
        image,
        context.given.known,
        settings,
        context.first,
        context.given.limit,
        plan,
    );
    planned(rt, answer, plan)
}

// Planning captions of these characters.
fn captions(
    rt: &impl Print,
    address: u32,
    extended: &[i32],
    ordinary: &[i32],
    plan: &mut [u8],
) -> io::Result<()> {
    let answer = adv7194_c::adv7194_plan_captions(extended, ordinary, address, plan);
    planned(rt, answer, plan)
}

// Planning captions: the settings are how many characters each pair has, and the characters.
pub(crate) fn plan_captions(
    rt: &impl Print,
    settings: &[i32],
    plan: &mut [u8],
    context: Context,
) -> io::Result<()> {
    let extended = context.second as usize;
    let ordinary = context.third as usize;
    if (MOST_CHARACTERS < extended) | (MOST_CHARACTERS < ordinary) {
        return print::no_record(rt);
    }
    let middle = FIRST_CHARACTER + extended;
    if settings.len() != middle + ordinary {
        return print::no_record(rt);
    }
    captions(
        rt,
        context.first,
        &settings[FIRST_CHARACTER..middle],
        &settings[middle..],
        plan,
    )
}

// Why a register is sent.
pub(crate) fn why(
    rt: &impl Print,
    settings: &[i32],
    image: &[u8],
    context: Context,
) -> io::Result<()> {
    let answer = adv7194_c::adv7194_why(
        image,
        context.given.known,
        settings,
        context.given.limit,
        context.first,
    );
    print::verdict(rt, answer.refusal, answer.field)?;
    print::decimal(rt, answer.reason)?;
    print::decimal(rt, answer.first)?;
    print::decimal(rt, answer.second)
}

// What playing answers, and the image after it; its known registers too where flags were given.
fn played(rt: &impl Print, answer: PlayAnswer, given: bool, image: &[u8]) -> io::Result<()> {
    print::verdict(rt, answer.refusal, answer.field)?;
    print::decimal(rt, answer.acknowledged)?;
    print::bytes(rt, image)?;
    print::known(rt, given, answer.known)
}

// Playing a plan, or one of captions.
pub(crate) fn play(
    rt: &impl Print,
    image: &mut [u8],
    plan: &[u8],
    context: Context,
) -> io::Result<()> {
    if context.operation == Operation::PlayCaptions {
        let answer = adv7194_c::adv7194_play_captions(
            image,
            context.given.known,
            context.first,
            context.second,
            plan,
        );
        return played(rt, answer, context.given.flags, image);
    }
    let answer = adv7194_c::adv7194_play(
        image,
        context.given.known,
        context.first,
        context.second,
        plan,
    );
    played(rt, answer, context.given.flags, image)
}

// Reading a pair of captions.
pub(crate) fn read_captions(rt: &impl Print, image: &[u8], context: Context) -> io::Result<()> {
    let answer = adv7194_c::adv7194_read_captions(image, context.given.known, context.first);
    print::verdict(rt, answer.refusal, answer.field)?;
    print::decimal(rt, answer.first)?;
    print::decimal(rt, answer.second)
}

// Reading.
pub(crate) fn read(rt: &impl Print, image: &[u8], known: u64) -> io::Result<()> {
    let mut settings = [0i32; SETTINGS];
    let answer = adv7194_c::adv7194_read(image, known, &mut settings);
    print::verdict(rt, answer.refusal, answer.field)?;
    print::numbers(rt, &settings)
}

// The house setting in lent settings.
fn lent_house(rt: &impl Print, settings: &mut [i32]) -> io::Result<()> {
    let answer = adv7194_c::adv7194_house(settings);
    print::verdict(rt, answer.refusal, answer.field)?;
    print::numbers(rt, settings)
}

// The house setting in so many lent settings.
pub(crate) fn house(rt: &impl Print, count: u32) -> io::Result<()> {
    let n = count as usize;
    if MOST_SETTINGS < n {
        return print::no_record(rt);
    }
    let mut settings = [BEFORE; MOST_SETTINGS];
    lent_house(rt, &mut settings[0..n])
}
