ghost use Rattle.std.specs.Prelude.{◌≡◌, ◌≤◌, ◌==◌, length};
ghost use Rattle.std.specs.List.{prefix_len, list_all};
ghost use Rattle.plan.specs.Labels.{printable, good_label};

/// How many of the bytes stand before the first that is not 0x21 to 0x7E.
fn text_len(bytes: &[u8]) -> usize
    ensures within { result ≤ length bytes.now }
    ensures text { result ≡ prefix_len printable bytes.now }
{
    bytes.iter().take_while(|b| b.is_ascii_graphic()).count()
}

/// Whether all bytes are zeros.
fn is_padding(bytes: &[u8]) -> bool
    ensures { result ≡ list_all (λ b. b == 0) bytes.now }
{
    bytes.iter().all(|b| *b == 0)
}

/// Whether the bytes are 1 or more of 0x21 to 0x7E, and then zeros.
#[tactic(auto, using(crate::proofs::LabelBytes::good_is, std::proofs::lemmas::List::take_rest))]
pub fn is_label(label: &[u8]) -> bool
    ensures { result ≡ good_label label.now }
{
    let text = text_len(label);
    text > 0 && is_padding(&label[text..])
}
