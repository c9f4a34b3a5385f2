// Playing and reading by the ADV7195's C interface.
use crate::context::Context;
use crate::print;
use std::io;

// How many numbers a set of settings is.
const SETTINGS: usize = 58;

// Playing.
pub(crate) fn play(
    rt: &impl Print,
    image: &mut [u8],
    plan: &[u8],
    context: Context,
) -> io::Result<()> {
    let answer = adv7195_c::adv7195_play(image, context.first, context.second, plan);
    print::verdict(rt, answer.refusal, answer.field)?;
    print::decimal(rt, answer.acknowledged)?;
    print::bytes(rt, image)
}

// Reading.
pub(crate) fn read(rt: &impl Print, image: &[u8]) -> io::Result<()> {
    let mut settings = [0i32; SETTINGS];
    let answer = adv7195_c::adv7195_read(image, &mut settings);
    print::verdict(rt, answer.refusal, answer.field)?;
    print::numbers(rt, &settings)
}
