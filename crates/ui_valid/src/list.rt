ghost use Rattle.std.specs.Prelude.{◌≡◌, ℕ, ◌<◌, map, length, get_or, IfOk};
ghost use Rattle.ui_exports.specs.Linked.{below};
ghost use Rattle.ui_file.specs.Words as words;
ghost use Rattle.ui_valid.specs.Record.{below_of};
ghost use Rattle.ui_valid.specs.Prints.{HaveEight};

use std::alloc::Global;
use ui_base::Text;
use ui_eobj::BelowEl;
use ui_exports::Below;
use ui_frame::NoMemory;
use ui_words::text_at;

// The fingerprint that a String holds.
fn print_at(texts: &[Text], k: u32) -> [u8; 8]
    requires { length (words.text_at texts.now k) ≡ 8 }
    ensures { result ≡ words.text_at texts.now k }
{
    let mut print = [0; 8];
    print.copy_from_slice(text_at(texts, k));
    print
}

fn below_at(alloc: Global, texts: &[Text], el: &BelowEl) -> Result<Below, NoMemory>
    requires { length (words.text_at texts.now el.now.print) ≡ 8 }
    ensures { IfOk result (λ b. below b ≡ below_of texts.now el.now) }
{
    let path = Text::from_slice(alloc, text_at(texts, el.path))?;
    Ok(Below {
        path,
        print: print_at(texts, el.print),
        direct: el.direct,
    })
}

/// The packages below that a private root lists.
pub(crate) fn list_of(
    alloc: Global,
    texts: &[Text],
    els: &[BelowEl],
) -> Result<Vec<Below>, NoMemory>
    requires { HaveEight texts.now els.now }
    ensures { IfOk result (λ v. map below v.items ≡ map (below_of texts.now) els.now) }
{
    let mut list = Vec::new(alloc);
    for k in 0..els.len() {
        let found = below_at(alloc, texts, &els[k])?;
        list.push(found)?;
    }
    Ok(list)
}
