// Which record makes which call.
use crate::context::{Context, Given};
use crate::forms::Operation;
use crate::{calls, chip, codings, context, forms, print, progressive};
use records::tokens;
use records::tokens::Tokens;
use std::io;

// The most bytes of an image or a plan.
const MOST_BYTES: usize = 64;

// Answers a record that changes neither its image nor lent bytes; one that gives something to those after it by ok alone.
fn other(rt: &impl Print, settings: &[i32], image: &[u8], context: Context) -> io::Result<()> {
    match context.operation {
        Operation::Read => calls::read(rt, image, context.given.known),
        Operation::Read7195 => progressive::read(rt, image),
        Operation::ReadCaptions => calls::read_captions(rt, image, context),
        Operation::Why => calls::why(rt, settings, image, context),
        _ => print::verdict(rt, 0, 0),
    }
}

// Answers a record with settings, an image, and a plan or lent bytes.
fn record(
    rt: &impl Print,
    settings: &[i32],
    image: &mut [u8],
    plan: &mut [u8],
    context: Context,
) -> io::Result<()> {
    match context.operation {
        Operation::Plan | Operation::Plan7195 => calls::plan(rt, settings, image, plan, context),
        Operation::Caption => calls::plan_captions(rt, settings, plan, context),
        Operation::Play | Operation::PlayCaptions => calls::play(rt, image, plan, context),
        Operation::Play7195 => progressive::play(rt, image, plan, context),
        _ => other(rt, settings, image, context),
    }
}

// What is answered to a line that is no record; what was given stays.
fn no_record(rt: &impl Print, before: Given) -> io::Result<Given> {
    print::no_record(rt)?;
    Ok(before)
}

// Answers a record with settings and an image; what is given after it.
fn with_image(
    rt: &impl Print,
    tokens: Tokens,
    settings: &[i32],
    image: &mut [u8],
    context: Context,
) -> io::Result<Given> {
    let mut plan = [0u8; MOST_BYTES];
    let n = tokens::bytes(tokens.held, tokens.second, tokens.count, &mut plan);
    if MOST_BYTES < n {
        return no_record(rt, context.given);
    }
    record(rt, settings, image, &mut plan[0..n], context)?;
    Ok(context::after(image, context))
}

// Answers a record with settings; what is given after it.
fn with_settings(
    rt: &impl Print,
    tokens: Tokens,
    settings: &[i32],
    context: Context,
) -> io::Result<Given> {
    let mut image = [0u8; MOST_BYTES];
    let n = tokens::bytes(tokens.held, tokens.first, tokens.middle, &mut image);
    if MOST_BYTES < n {
        return no_record(rt, context.given);
    }
    with_image(rt, tokens, settings, &mut image[0..n], context)
}

// Answers a record that needs settings, an image or a plan; what is given after it.
fn with_lists(rt: &impl Print, tokens: Tokens, context: Context) -> io::Result<Given> {
    let settings = calls::settings(tokens);
    let count = calls::setting_count(tokens.numbers);
    with_settings(rt, tokens, &settings[0..count], context)
}

// Answers a record that needs no image and no plan; what was given stays.
fn without_lists(rt: &impl Print, tokens: Tokens, context: Context) -> io::Result<Given> {
    match context.operation {
        Operation::Events => chip::events(rt, tokens, context)?,
        Operation::Code => codings::code(rt, context.first, context.setting)?,
        Operation::Setting => codings::setting(rt, context.first, context.second)?,
        _ => calls::house(rt, context.first)?,
    }
    Ok(context.given)
}

// Answers a line that asks for something; what is given after it.
fn line(rt: &impl Print, text: &[u8], before: Given) -> io::Result<Given> {
    let tokens = tokens::split(text);
    let Ok(operation) = Operation::try_from(tokens.held[0]) else {
        return no_record(rt, before);
    };
    if !forms::fits(operation, tokens) {
        return no_record(rt, before);
    }
    let context = context::of_record(operation, tokens, before);
    match operation {
        Operation::Events | Operation::Code | Operation::Setting | Operation::House =>
            without_lists(rt, tokens, context),
        _ => with_lists(rt, tokens, context),
    }
}

// Whether a line asks for nothing.
fn is_blank(text: &[u8]) -> bool {
    text.is_empty() || text[0] == b'#'
}

// Answers a line; what is given after it.
pub(crate) fn answer(rt: &impl Print, text: &[u8], before: Given) -> io::Result<Given> {
    let after = if is_blank(text) {
        before
    } else {
        line(rt, text, before)?
    };
    print::text(rt, b"\n")?;
    Ok(after)
}
