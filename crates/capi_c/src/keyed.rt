// Exported keyed calls: a session made new, the key call, ratchet, encryption and decryption.
// Numbers, kinds and flags are bytes: the C interface.
ghost use Rattle.std.specs.Prelude.{◌≡◌, [], ltb};
ghost use Rattle.xoodyak.specs.Calls.{key_of, new_of, ratchet_of, encrypt_of, decrypt_of, encrypt_in_place_of, decrypt_in_place_of};
ghost use Rattle.capi.specs.Capi.{rule_of, flag_of, sound, with_flags, exported, whole};

#[unsafe(no_mangle)]
pub extern "C" fn lafomeihu_new<'a>(
    st: &mut [u8; 48],
    head: &mut [u8; 6],
    rule: u8,
    key: &[u8],
    has_nonce: u8,
    nonce: &'a [u8],
    has_id: u8,
    id: &'a [u8],
    has_counter: u8,
    counter: &[u8],
    counts: &mut [usize; 3],
) -> u8
    ensures { let x = exported (with_flags (ltb rule 2) has_nonce has_id has_counter) st.old head.old [] [] counts.old (λ _. whole (new_of (rule_of rule) key.now (flag_of has_nonce) nonce.now (flag_of has_id) id.now (flag_of has_counter) counter.now)) in (result ≡ x.number) × ((st.new ≡ x.st) × ((head.new ≡ x.head) × (counts.new ≡ x.counts))) }
{
    capi::keyed::lafomeihu_new(
        st,
        head,
        rule,
        key,
        has_nonce,
        nonce,
        has_id,
        id,
        has_counter,
        counter,
        counts,
    )
}

#[unsafe(no_mangle)]
pub extern "C" fn lafomeihu_absorb_key_and_nonce<'a>(
    st: &mut [u8; 48],
    head: &mut [u8; 6],
    key: &[u8],
    has_id: u8,
    id: &'a [u8],
    has_nonce: u8,
    nonce: &'a [u8],
    has_counter: u8,
    counter: &[u8],
    counts: &mut [usize; 3],
) -> u8
    ensures { let x = exported (with_flags (sound head.old) has_id has_nonce has_counter) st.old head.old [] [] counts.old (λ s. whole (key_of s key.now (flag_of has_id) id.now (flag_of has_nonce) nonce.now (flag_of has_counter) counter.now)) in (result ≡ x.number) × ((st.new ≡ x.st) × ((head.new ≡ x.head) × (counts.new ≡ x.counts))) }
{
    capi::keyed::lafomeihu_absorb_key_and_nonce(
        st,
        head,
        key,
        has_id,
        id,
        has_nonce,
        nonce,
        has_counter,
        counter,
        counts,
    )
}

#[unsafe(no_mangle)]
pub extern "C" fn lafomeihu_ratchet(
    st: &mut [u8; 48],
    head: &mut [u8; 6],
    counts: &mut [usize; 3],
) -> u8
    ensures { let x = exported (sound head.old) st.old head.old [] [] counts.old (λ s. whole (ratchet_of s)) in (result ≡ x.number) × ((st.new ≡ x.st) × ((head.new ≡ x.head) × (counts.new ≡ x.counts))) }
{
    capi::keyed::lafomeihu_ratchet(st, head, counts)
}

#[unsafe(no_mangle)]
pub extern "C" fn lafomeihu_encrypt(
    st: &mut [u8; 48],
    head: &mut [u8; 6],
    out: &mut [u8],
    bin: &[u8],
    counts: &mut [usize; 3],
) -> u8
    ensures { let x = exported (sound head.old) st.old head.old out.old [] counts.old (λ s. whole (encrypt_of s out.old bin.now)) in (result ≡ x.number) × ((st.new ≡ x.st) × ((head.new ≡ x.head) × ((out.new ≡ x.bytes) × (counts.new ≡ x.counts)))) }
{
    capi::keyed::lafomeihu_encrypt(st, head, out, bin, counts)
}

#[unsafe(no_mangle)]
pub extern "C" fn lafomeihu_decrypt(
    st: &mut [u8; 48],
    head: &mut [u8; 6],
    out: &mut [u8],
    bin: &[u8],
    counts: &mut [usize; 3],
) -> u8
    ensures { let x = exported (sound head.old) st.old head.old out.old [] counts.old (λ s. whole (decrypt_of s out.old bin.now)) in (result ≡ x.number) × ((st.new ≡ x.st) × ((head.new ≡ x.head) × ((out.new ≡ x.bytes) × (counts.new ≡ x.counts)))) }
{
    capi::keyed::lafomeihu_decrypt(st, head, out, bin, counts)
}

#[unsafe(no_mangle)]
pub extern "C" fn lafomeihu_encrypt_in_place(
    st: &mut [u8; 48],
    head: &mut [u8; 6],
    in_out: &mut [u8],
    counts: &mut [usize; 3],
) -> u8
    ensures { let x = exported (sound head.old) st.old head.old in_out.old [] counts.old (λ s. whole (encrypt_in_place_of s in_out.old)) in (result ≡ x.number) × ((st.new ≡ x.st) × ((head.new ≡ x.head) × ((in_out.new ≡ x.bytes) × (counts.new ≡ x.counts)))) }
{
    capi::keyed::lafomeihu_encrypt_in_place(st, head, in_out, counts)
}

#[unsafe(no_mangle)]
pub extern "C" fn lafomeihu_decrypt_in_place(
    st: &mut [u8; 48],
    head: &mut [u8; 6],
    in_out: &mut [u8],
    counts: &mut [usize; 3],
) -> u8
    ensures { let x = exported (sound head.old) st.old head.old in_out.old [] counts.old (λ s. whole (decrypt_in_place_of s in_out.old)) in (result ≡ x.number) × ((st.new ≡ x.st) × ((head.new ≡ x.head) × ((in_out.new ≡ x.bytes) × (counts.new ≡ x.counts)))) }
{
    capi::keyed::lafomeihu_decrypt_in_place(st, head, in_out, counts)
}
