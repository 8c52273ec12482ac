//! A user of a setting.

ghost use Rattle.std.specs.Prelude.{◌<◌, length};
ghost use Rattle.shape_links.specs.Setting.{IsUser};

use shape_links::Setting;

// A part of a setting that is no resource.
#[derive(Clone, Copy)]
pub(crate) struct User<'a> {
    pub(crate) setting: &'a Setting<'a>,
    pub(crate) part: u32,
    ghost within: { part < length setting.now.shape.parts },
    ghost user: { IsUser setting.now part },
}
