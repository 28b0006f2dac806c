// Exported calls that seal or open a message handed over bit by bit. A kind is 0 to seal and 1 to open.
// Numbers, kinds and flags are bytes: the C interface.
ghost use Rattle.std.specs.Prelude.{◌≡◌, []};
ghost use Rattle.xoodyak.specs.Feed.{begin_of, feed_of, finish_seal_of, finish_open_of};
ghost use Rattle.capi.specs.Capi.{kind_of, sound, sound_with, exported, whole};

#[unsafe(no_mangle)]
pub extern "C" fn lafomeihu_begin(st: &mut [u8; 48], head: &mut [u8; 6], kind: u8) -> u8
    ensures { let x = exported (sound_with head.old kind) st.old head.old [] [] [] (λ s. whole (begin_of (kind_of kind) s)) in (result ≡ x.number) × ((st.new ≡ x.st) × (head.new ≡ x.head)) }
{
    capi::feed::lafomeihu_begin(st, head, kind)
}

#[unsafe(no_mangle)]
pub extern "C" fn lafomeihu_feed(
    st: &mut [u8; 48],
    head: &mut [u8; 6],
    kind: u8,
    out: &mut [u8],
    piece: &[u8],
    allowance: usize,
    counts: &mut [usize; 3],
) -> u8
    ensures { let x = exported (sound_with head.old kind) st.old head.old out.old [] counts.old (λ s. feed_of (kind_of kind) s out.old piece.now allowance) in (result ≡ x.number) × ((st.new ≡ x.st) × ((head.new ≡ x.head) × ((out.new ≡ x.bytes) × (counts.new ≡ x.counts)))) }
{
    capi::feed::lafomeihu_feed(st, head, kind, out, piece, allowance, counts)
}

#[unsafe(no_mangle)]
pub extern "C" fn lafomeihu_finish_seal(
    st: &mut [u8; 48],
    head: &mut [u8; 6],
    tag: &mut [u8; 16],
    counts: &mut [usize; 3],
) -> u8
    ensures { let x = exported (sound head.old) st.old head.old [] tag.old counts.old (λ s. finish_seal_of s) in (result ≡ x.number) × ((st.new ≡ x.st) × ((head.new ≡ x.head) × ((tag.new ≡ x.tag) × (counts.new ≡ x.counts)))) }
{
    capi::feed::lafomeihu_finish_seal(st, head, tag, counts)
}

#[unsafe(no_mangle)]
pub extern "C" fn lafomeihu_finish_open(
    st: &mut [u8; 48],
    head: &mut [u8; 6],
    tag: &[u8; 16],
    counts: &mut [usize; 3],
) -> u8
    ensures { let x = exported (sound head.old) st.old head.old [] [] counts.old (λ s. finish_open_of s (record { bytes = tag.now })) in (result ≡ x.number) × ((st.new ≡ x.st) × ((head.new ≡ x.head) × (counts.new ≡ x.counts))) }
{
    capi::feed::lafomeihu_finish_open(st, head, tag, counts)
}
