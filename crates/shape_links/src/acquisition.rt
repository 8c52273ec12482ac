//! Which resource an event acquires.

ghost use Rattle.std.specs.Prelude.{◌≡◌, ◌<◌, ℕ, Some, true, length};
ghost use Rattle.shape_links.specs.Acquired.{is_acquired_by};
ghost use Rattle.shape_links.specs.Setting.{KeepKinds};

use crate::setting::Setting;
use csp_base::Event;

/// The resource that the event acquires.
pub fn acquired_resource(setting: &Setting<'_>, event: Event) -> Option<u32>
    requires { KeepKinds setting.now }
    ensures within { (j : ℕ) → result ≡ Some j → j < length setting.now.shape.parts }
    ensures found { (j : ℕ) → result ≡ Some j → is_acquired_by setting.now j event ≡ true }
    ensures owned { (j : ℕ) → is_acquired_by setting.now j event ≡ true → result ≡ Some j }
{
    let _form = setting.shape();
    let link = setting.owner(event)?;
    let ends = setting.link(link);
    let left = ends.left();
    let right = ends.right();
    if is_acquired(setting, left, event) {
        return Some(left);
    }
    if is_acquired(setting, right, event) {
        return Some(right);
    }
    None
}

// Whether the part is a resource that the event acquires.
fn is_acquired(setting: &Setting<'_>, part: u32, event: Event) -> bool
    requires { part < length setting.now.shape.parts }
    ensures { result ≡ is_acquired_by setting.now part event }
{
    let uses = setting.uses(part);
    uses.is_resource() && uses.acquire().contains(event)
}
