// Exported steps back on a session that is the caller's: its 48 bytes are those after the call, and the phase is a number for
// the phase before it.
// Numbers, kinds and flags are bytes: the C interface.
ghost use Rattle.std.specs.Prelude.{◌≡◌};
ghost use Rattle.walkback.specs.Walk.{absorbs, absorbs_more, squeezes, squeezes_key, squeezes_more, keys, encrypts, seals};
ghost use Rattle.capi.specs.Capi.{flag_of, sound_with, with_flags};
ghost use Rattle.capi.specs.Back.{exported_back};

#[unsafe(no_mangle)]
pub extern "C" fn lafomeihu_back_absorb(
    st: &mut [u8; 48],
    head: &mut [u8; 6],
    phase: u8,
    bin: &[u8],
) -> u8
    ensures { let x = exported_back (sound_with head.old phase) st.old head.old phase (absorbs bin.now) in (result ≡ x.number) × ((st.new ≡ x.st) × (head.new ≡ x.head)) }
{
    capi::back::lafomeihu_back_absorb(st, head, phase, bin)
}

#[unsafe(no_mangle)]
pub extern "C" fn lafomeihu_back_absorb_more(
    st: &mut [u8; 48],
    head: &mut [u8; 6],
    phase: u8,
    bin: &[u8],
    rate: usize,
) -> u8
    ensures { let x = exported_back (sound_with head.old phase) st.old head.old phase (absorbs_more bin.now rate) in (result ≡ x.number) × ((st.new ≡ x.st) × (head.new ≡ x.head)) }
{
    capi::back::lafomeihu_back_absorb_more(st, head, phase, bin, rate)
}

#[unsafe(no_mangle)]
pub extern "C" fn lafomeihu_back_squeeze(
    st: &mut [u8; 48],
    head: &mut [u8; 6],
    phase: u8,
    n: usize,
) -> u8
    ensures { let x = exported_back (sound_with head.old phase) st.old head.old phase (squeezes n) in (result ≡ x.number) × ((st.new ≡ x.st) × (head.new ≡ x.head)) }
{
    capi::back::lafomeihu_back_squeeze(st, head, phase, n)
}

#[unsafe(no_mangle)]
pub extern "C" fn lafomeihu_back_squeeze_key(
    st: &mut [u8; 48],
    head: &mut [u8; 6],
    phase: u8,
    n: usize,
) -> u8
    ensures { let x = exported_back (sound_with head.old phase) st.old head.old phase (squeezes_key n) in (result ≡ x.number) × ((st.new ≡ x.st) × (head.new ≡ x.head)) }
{
    capi::back::lafomeihu_back_squeeze_key(st, head, phase, n)
}

#[unsafe(no_mangle)]
pub extern "C" fn lafomeihu_back_squeeze_more(
    st: &mut [u8; 48],
    head: &mut [u8; 6],
    phase: u8,
    n: usize,
) -> u8
    ensures { let x = exported_back (sound_with head.old phase) st.old head.old phase (squeezes_more n) in (result ≡ x.number) × ((st.new ≡ x.st) × (head.new ≡ x.head)) }
{
    capi::back::lafomeihu_back_squeeze_more(st, head, phase, n)
}

#[unsafe(no_mangle)]
pub extern "C" fn lafomeihu_back_key<'a>(
    st: &mut [u8; 48],
    head: &mut [u8; 6],
    phase: u8,
    key: &[u8],
    has_id: u8,
    id: &'a [u8],
    has_nonce: u8,
    nonce: &'a [u8],
    has_counter: u8,
    counter: &[u8],
) -> u8
    ensures { let x = exported_back (with_flags (sound_with head.old phase) has_id has_nonce has_counter) st.old head.old phase (keys key.now (flag_of has_id) id.now (flag_of has_nonce) nonce.now (flag_of has_counter) counter.now) in (result ≡ x.number) × ((st.new ≡ x.st) × (head.new ≡ x.head)) }
{
    capi::back::lafomeihu_back_key(
        st,
        head,
        phase,
        key,
        has_id,
        id,
        has_nonce,
        nonce,
        has_counter,
        counter,
    )
}

#[unsafe(no_mangle)]
pub extern "C" fn lafomeihu_back_encrypt(
    st: &mut [u8; 48],
    head: &mut [u8; 6],
    phase: u8,
    plaintext: &[u8],
) -> u8
    ensures { let x = exported_back (sound_with head.old phase) st.old head.old phase (encrypts plaintext.now) in (result ≡ x.number) × ((st.new ≡ x.st) × (head.new ≡ x.head)) }
{
    capi::back::lafomeihu_back_encrypt(st, head, phase, plaintext)
}

#[unsafe(no_mangle)]
pub extern "C" fn lafomeihu_back_seal(
    st: &mut [u8; 48],
    head: &mut [u8; 6],
    phase: u8,
    plaintext: &[u8],
) -> u8
    ensures { let x = exported_back (sound_with head.old phase) st.old head.old phase (seals plaintext.now) in (result ≡ x.number) × ((st.new ≡ x.st) × (head.new ≡ x.head)) }
{
    capi::back::lafomeihu_back_seal(st, head, phase, plaintext)
}
