//! The puts of the texts of links.
ghost use Rattle.std.specs.Prelude.{◌≡◌, ◌≤◌, ◌<◌, IfErr, OnErr, OnOk, length};
ghost use Rattle.lto_outside.specs.Cause.{Rose};
ghost use Rattle.lto_words.specs.Links.{PutFailed, puts};

use crate::listing::ListedLink;
use ir_tree::Text;
use lto_outside::Files;

/// Puts the text of each link, in order, up to one that can't be put: then the place of that link is told.
pub fn put_all<F: Files>(files: &mut F, links: &[ListedLink], texts: &[Text]) -> Result<(), usize>
    requires { length links.now ≡ length texts.now }
    ensures put { OnOk result (F.did files.old (puts links.now texts.now) files.new) }
    ensures failed { IfErr result (λ at. PutFailed (λ calls. F.did files.old calls files.new) links.now texts.now at) }
    ensures within { IfErr result (λ at. at < length links.now) }
    ensures rose { OnErr result (Rose (F.faults files.old) (F.faults files.new)) }
    ensures later { F.faults files.old ≤ F.faults files.new }
{
    for (at, link) in links.iter().enumerate() {
        match files.put(link.out.as_str(), texts[at].as_slice()) {
            Ok(()) => {}
            Err(_) => return Err(at),
        }
    }
    Ok(())
}
