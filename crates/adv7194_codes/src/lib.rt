// The codings of the ADV7194 in which the setting isn't the code, setting to code and back.
#![tactic(auto)]

mod brightness;
mod clamp_delay;
mod hue;
mod scaled;
mod sharpness;
mod thousandths;

pub use brightness::{brightness_code, brightness_setting};
pub use clamp_delay::{clamp_delay_code, clamp_delay_setting};
pub use hue::{hue_code, hue_setting};
pub use sharpness::{sharpness_code, sharpness_setting};
pub use thousandths::{thousandths_code, thousandths_setting};
