ghost use Rattle.std.specs.Prelude.{◌≡◌, ◌∷◌, [], IfNone, IfSome};
ghost use Rattle.dstm_text.specs.Lines.{fields_of};
ghost use Rattle.dstm_workload.specs.Words.{spelling, since, word_spelled, word_of};

use dstm_text::Fields;

/// The words of a workload's text.
#[derive(Clone, Copy, Debug, PartialEq, Eq)]
pub enum Word {
    Workers,
    Bank,
    List,
    Tree,
    Tx,
    Transfer,
    Balance,
    Total,
    Insert,
    Remove,
    Member,
    Put,
    Get,
    Await,
    OrElse,
    Semicolon,
}

impl Word {
    /// The word that a field is, if a version has one there.
    #[inline(always)]
    pub fn of(field: &[u8], version: u32) -> Option<Word>
        ensures { result ≡ word_of version field.now }
    {
        let word = Word::spelled(field)?;
        word.if_since(version)
    }

    // The same word, if a version has it.
    #[inline(always)]
    fn if_since(self, version: u32) -> Option<Word>
        ensures { result ≡ word_of version (spelling self) }
    {
        (self.since() <= version).then_some(self)
    }

    // The word that is spelled so.
    #[tactic(auto, unfolding(crate::specs::Words::word_spelled))]
    #[inline(always)]
    fn spelled(field: &[u8]) -> Option<Word>
        ensures { result ≡ word_spelled field.now }
    {
        match field {
            b";" => Some(Word::Semicolon),
            b"tx" => Some(Word::Tx),
            b"transfer" => Some(Word::Transfer),
            b"balance" => Some(Word::Balance),
            b"total" => Some(Word::Total),
            b"insert" => Some(Word::Insert),
            b"remove" => Some(Word::Remove),
            b"member" => Some(Word::Member),
            b"list" => Some(Word::List),
            b"tree" => Some(Word::Tree),
            b"put" => Some(Word::Put),
            b"get" => Some(Word::Get),
            b"await" => Some(Word::Await),
            b"orelse" => Some(Word::OrElse),
            b"bank" => Some(Word::Bank),
            b"workers" => Some(Word::Workers),
            _ => None,
        }
    }

    /// How it is spelled.
    pub fn text(self) -> &'static [u8]
        ensures { result.now ≡ spelling self }
    {
        match self {
            Word::Workers => b"workers",
            Word::Bank => b"bank",
            Word::List => b"list",
            Word::Tree => b"tree",
            Word::Tx => b"tx",
            Word::Transfer => b"transfer",
            Word::Balance => b"balance",
            Word::Total => b"total",
            Word::Insert => b"insert",
            Word::Remove => b"remove",
            Word::Member => b"member",
            Word::Put => b"put",
            Word::Get => b"get",
            Word::Await => b"await",
            Word::OrElse => b"orelse",
            Word::Semicolon => b";",
        }
    }

    /// The first version that has it.
    pub fn since(self) -> u32
        ensures { result ≡ since self }
    {
        match self {
            Word::Put | Word::Get => 2,
            Word::Await | Word::OrElse => 3,
            _ => 1,
        }
    }
}

/// Takes the next field, and tells the word of the version that it is. Where a word was found at the front of the fields
/// already, that is the one, and its bytes are not looked at again.
#[inline(always)]
pub fn next_word<'a>(
    found: Option<(Word, &'a [u8])>,
    fields: &mut Fields<'a>,
    version: u32,
) -> Option<(&'a [u8], Option<Word>)>
    requires { IfSome found (λ front. fields.old ≡ spelling front.0 ∷ fields_of front.1.now) }
    ensures some { IfSome result (λ next. fields.old ≡ next.0.now ∷ fields.new) }
    ensures word { IfSome result (λ next. next.1 ≡ word_of version next.0.now) }
    ensures none { IfNone result (fields.old ≡ []) }
    ensures ended { IfNone result (fields.new ≡ []) }
{
    if let Some((word, rest)) = found {
        *fields = Fields::new(rest);
        return Some((word.text(), word.if_since(version)));
    }
    let field = fields.next()?;
    Some((field, Word::of(field, version)))
}

/// The word that begins an operation, where a line begins with it and a space, and what stands behind the space.
#[inline(always)]
pub fn operation_word(line: &[u8]) -> Option<(Word, &[u8])>
    ensures { IfSome result (λ front. fields_of line.now ≡ spelling front.0 ∷ fields_of front.1.now) }
{
    match line {
        [
            b't',
            b'r',
            b'a',
            b'n',
            b's',
            b'f',
            b'e',
            b'r',
            b' ',
            rest @ ..,
        ] => { Some((Word::Transfer, rest)) }
        [b'i', b'n', b's', b'e', b'r', b't', b' ', rest @ ..] => Some((Word::Insert, rest)),
        [b'r', b'e', b'm', b'o', b'v', b'e', b' ', rest @ ..] => Some((Word::Remove, rest)),
        [b'm', b'e', b'm', b'b', b'e', b'r', b' ', rest @ ..] => Some((Word::Member, rest)),
        [b'b', b'a', b'l', b'a', b'n', b'c', b'e', b' ', rest @ ..] => Some((Word::Balance, rest)),
        [b't', b'o', b't', b'a', b'l', b' ', rest @ ..] => Some((Word::Total, rest)),
        [b'p', b'u', b't', b' ', rest @ ..] => Some((Word::Put, rest)),
        [b'g', b'e', b't', b' ', rest @ ..] => Some((Word::Get, rest)),
        _ => None,
    }
}

/// The name of a structure, where a line begins with it and a space, and what stands behind the space.
#[inline(always)]
pub fn structure_word(line: &[u8]) -> Option<(Word, &[u8])>
    ensures { IfSome result (λ front. fields_of line.now ≡ spelling front.0 ∷ fields_of front.1.now) }
{
    match line {
        [b'l', b'i', b's', b't', b' ', rest @ ..] => Some((Word::List, rest)),
        [b't', b'r', b'e', b'e', b' ', rest @ ..] => Some((Word::Tree, rest)),
        _ => None,
    }
}

/// A semicolon, where a line begins with it and a space, and what stands behind the space.
#[inline(always)]
pub fn semicolon_word(line: &[u8]) -> Option<(Word, &[u8])>
    ensures { IfSome result (λ front. fields_of line.now ≡ spelling front.0 ∷ fields_of front.1.now) }
{
    match line {
        [b';', b' ', rest @ ..] => Some((Word::Semicolon, rest)),
        _ => None,
    }
}

/// Takes the next field. Most lines begin with `tx`, which is looked at as it stands.
#[inline(always)]
pub fn first_field<'a>(fields: &mut Fields<'a>) -> Option<&'a [u8]>
    ensures some { IfSome result (λ field. fields.old ≡ field.now ∷ fields.new) }
    ensures none { IfNone result (fields.old ≡ []) }
    ensures ended { IfNone result (fields.new ≡ []) }
{
    if let [b't', b'x', b' ', rest @ ..] = fields.rest() {
        *fields = Fields::new(rest);
        return Some(b"tx");
    }
    fields.next()
}
