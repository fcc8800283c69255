//! What `check` writes.

ghost use Rattle.std.specs.Prelude.{◌≡◌, IfOk};
ghost use Rattle.cert_text.specs.Certificates.{plain_of};
ghost use Rattle.cert_check.specs.Asked.{reason_of};
ghost use Rattle.arbac_desk.specs.CheckTexts.{accepted_text, refused_text};

use cert_check::Why;
use cert_text::Cert;
use desk_texts::{kind_word, put_why};
use role_order::Order;
use std::alloc::{AllocError, Global};
use text_pieces::put;

/// The text of a certificate that has its property.
pub fn accepted(alloc: Global, cert: &Cert) -> Result<Vec<u8>, AllocError>
    ensures { IfOk result (λ text. text.items ≡ accepted_text (plain_of cert.now)) }
{
    let mut text = Vec::new(alloc);
    put(&mut text, "accepted ")?;
    put(&mut text, kind_word(cert))?;
    put(&mut text, "\n")?;
    Ok(text)
}

/// The text of a certificate that fails first for this reason.
pub fn refused(alloc: Global, order: &Order, why: &Why) -> Result<Vec<u8>, AllocError>
    ensures { IfOk result (λ text. text.items ≡ refused_text order.now.names (reason_of why.now)) }
{
    let mut text = Vec::new(alloc);
    put(&mut text, "refused ")?;
    put_why(alloc, &mut text, order, why)?;
    put(&mut text, "\n")?;
    Ok(text)
}
