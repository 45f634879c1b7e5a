//! Whether a regular expression matches what a metavariable stands for.

ghost use Rattle.std.specs.Prelude.{◌≡◌, All, IfOk};
ghost use Rattle.std.specs.Str.{IsUtf8};
ghost use Rattle.meta_bind.specs.declared.bound.Bound.{Bound as bound};
ghost use Rattle.meta_bind.specs.Places.{EndsLieIn};
ghost use Rattle.meta_filter.specs.BoundTexts as spec;

use meta_bind::Binding;
use node_tree::Memory;
use rx_text::Rx;
use std::str;

/// Whether the first match of the regular expression in the bytes that the name is bound to begins at their start, where these
/// are a text of their own. False for a name that isn't bound; one whose span ends before it begins has no bytes.
pub fn holds_regex(rx: &mut Rx, binding: &Binding, name: &str, bytes: &[u8]) -> Result<bool, Memory>
    requires utf8 { ∥ IsUtf8 bytes.now ∥₁ }
    requires placed { All (λ (b : bound). EndsLieIn bytes.now b.span) binding.now }
    ensures holds { IfOk result (λ holds. holds ≡ spec.holds_regex rx.old binding.now name.now bytes.now) }
    ensures same { rx.new ≡ rx.old }
{
    match binding.get(name) {
        None => Ok(false),
        Some(bound) => {
            let from = bound.span.from as usize;
            let to = bound.span.to as usize;
            if to < from {
                return rx.at_start("");
            }
            match str::from_utf8(&bytes[from..to]) {
                Ok(text) => rx.at_start(text),
                Err(_) => unreachable!(),
            }
        }
    }
}
