// Words: the reserved words and the punctuators (ECMA-262 edition 5.1, 7.6.1 and 7.7).
ghost use Rattle.std.specs.Prelude.{◌≡◌};
ghost use Rattle.js_tokens.specs.Words.{spelling};

/// What a token is, without its text: a reserved word, a punctuator, or a token of one of the three kinds that have many texts.
#[derive(Clone, Copy, Debug, PartialEq, Eq)]
pub enum Word {
    Name,
    Number,
    Text,
    /// `{`
    OpenBrace,
    /// `}`
    CloseBrace,
    /// `(`
    OpenParen,
    /// `)`
    CloseParen,
    /// `[`
    OpenBracket,
    /// `]`
    CloseBracket,
    /// `.`
    Dot,
    /// `;`
    Semicolon,
    /// `,`
    Comma,
    /// `<`
    Less,
    /// `>`
    Greater,
    /// `<=`
    LessEqual,
    /// `>=`
    GreaterEqual,
    /// `==`
    Equal,
    /// `!=`
    NotEqual,
    /// `===`
    Identical,
    /// `!==`
    NotIdentical,
    /// `+`
    Plus,
    /// `-`
    Minus,
    /// `*`
    Star,
    /// `%`
    Percent,
    /// `++`
    PlusPlus,
    /// `--`
    MinusMinus,
    /// `<<`
    ShiftLeft,
    /// `>>`
    ShiftRight,
    /// `>>>`
    ShiftZero,
    /// `&`
    BitAnd,
    /// `|`
    BitOr,
    /// `^`
    BitXor,
    /// `!`
    Not,
    /// `~`
    BitNot,
    /// `&&`
    And,
    /// `||`
    Or,
    /// `?`
    Question,
    /// `:`
    Colon,
    /// `=`
    Assign,
    /// `+=`
    PlusAssign,
    /// `-=`
    MinusAssign,
    /// `*=`
    StarAssign,
    /// `%=`
    PercentAssign,
    /// `<<=`
    ShiftLeftAssign,
    /// `>>=`
    ShiftRightAssign,
    /// `>>>=`
    ShiftZeroAssign,
    /// `&=`
    BitAndAssign,
    /// `|=`
    BitOrAssign,
    /// `^=`
    BitXorAssign,
    /// `/`
    Slash,
    /// `/=`
    SlashAssign,
    /// `break`
    Break,
    /// `case`
    Case,
    /// `catch`
    Catch,
    /// `continue`
    Continue,
    /// `debugger`
    Debugger,
    /// `default`
    Default,
    /// `delete`
    Delete,
    /// `do`
    Do,
    /// `else`
    Else,
    /// `finally`
    Finally,
    /// `for`
    For,
    /// `function`
    Function,
    /// `if`
    If,
    /// `in`
    In,
    /// `instanceof`
    InstanceOf,
    /// `new`
    New,
    /// `return`
    Return,
    /// `switch`
    Switch,
    /// `this`
    This,
    /// `throw`
    Throw,
    /// `try`
    Try,
    /// `typeof`
    TypeOf,
    /// `var`
    Var,
    /// `void`
    Void,
    /// `while`
    While,
    /// `with`
    With,
    /// `class`
    Class,
    /// `const`
    Const,
    /// `enum`
    Enum,
    /// `export`
    Export,
    /// `extends`
    Extends,
    /// `import`
    Import,
    /// `super`
    Super,
    /// `null`
    Null,
    /// `true`
    True,
    /// `false`
    False,
}

// The reserved words: keywords, future reserved words outside strict mode, and literals.
pub(crate) const RESERVED: [Word; 36] = [
    Word::Break,
    Word::Case,
    Word::Catch,
    Word::Continue,
    Word::Debugger,
    Word::Default,
    Word::Delete,
    Word::Do,
    Word::Else,
    Word::Finally,
    Word::For,
    Word::Function,
    Word::If,
    Word::In,
    Word::InstanceOf,
    Word::New,
    Word::Return,
    Word::Switch,
    Word::This,
    Word::Throw,
    Word::Try,
    Word::TypeOf,
    Word::Var,
    Word::Void,
    Word::While,
    Word::With,
    Word::Class,
    Word::Const,
    Word::Enum,
    Word::Export,
    Word::Extends,
    Word::Import,
    Word::Super,
    Word::Null,
    Word::True,
    Word::False,
];

// The punctuators, no one before a longer one.
pub(crate) const PUNCTUATORS: [Word; 48] = [
    Word::ShiftZeroAssign,
    Word::Identical,
    Word::NotIdentical,
    Word::ShiftZero,
    Word::ShiftLeftAssign,
    Word::ShiftRightAssign,
    Word::LessEqual,
    Word::GreaterEqual,
    Word::Equal,
    Word::NotEqual,
    Word::PlusPlus,
    Word::MinusMinus,
    Word::ShiftLeft,
    Word::ShiftRight,
    Word::And,
    Word::Or,
    Word::PlusAssign,
    Word::MinusAssign,
    Word::StarAssign,
    Word::PercentAssign,
    Word::BitAndAssign,
    Word::BitOrAssign,
    Word::BitXorAssign,
    Word::SlashAssign,
    Word::OpenBrace,
    Word::CloseBrace,
    Word::OpenParen,
    Word::CloseParen,
    Word::OpenBracket,
    Word::CloseBracket,
    Word::Dot,
    Word::Semicolon,
    Word::Comma,
    Word::Less,
    Word::Greater,
    Word::Plus,
    Word::Minus,
    Word::Star,
    Word::Percent,
    Word::BitAnd,
    Word::BitOr,
    Word::BitXor,
    Word::Not,
    Word::BitNot,
    Word::Question,
    Word::Colon,
    Word::Assign,
    Word::Slash,
];

impl Word {
    /// The text of a reserved word or a punctuator; none of a word with many texts.
    pub fn spelling(self) -> &'static [u8]
        ensures { result.now ≡ spelling self }
    {
        match self {
            Word::Name | Word::Number | Word::Text => b"",
            Word::OpenBrace => b"{",
            Word::CloseBrace => b"}",
            Word::OpenParen => b"(",
            Word::CloseParen => b")",
            Word::OpenBracket => b"[",
            Word::CloseBracket => b"]",
            Word::Dot => b".",
            Word::Semicolon => b";",
            Word::Comma => b",",
            Word::Less => b"<",
            Word::Greater => b">",
            Word::LessEqual => b"<=",
            Word::GreaterEqual => b">=",
            Word::Equal => b"==",
            Word::NotEqual => b"!=",
            Word::Identical => b"===",
            Word::NotIdentical => b"!==",
            Word::Plus => b"+",
            Word::Minus => b"-",
            Word::Star => b"*",
            Word::Percent => b"%",
            Word::PlusPlus => b"++",
            Word::MinusMinus => b"--",
            Word::ShiftLeft => b"<<",
            Word::ShiftRight => b">>",
            Word::ShiftZero => b">>>",
            Word::BitAnd => b"&",
            Word::BitOr => b"|",
            Word::BitXor => b"^",
            Word::Not => b"!",
            Word::BitNot => b"~",
            Word::And => b"&&",
            Word::Or => b"||",
            Word::Question => b"?",
            Word::Colon => b":",
            Word::Assign => b"=",
            Word::PlusAssign => b"+=",
            Word::MinusAssign => b"-=",
            Word::StarAssign => b"*=",
            Word::PercentAssign => b"%=",
            Word::ShiftLeftAssign => b"<<=",
            Word::ShiftRightAssign => b">>=",
            Word::ShiftZeroAssign => b">>>=",
            Word::BitAndAssign => b"&=",
            Word::BitOrAssign => b"|=",
            Word::BitXorAssign => b"^=",
            Word::Slash => b"/",
            Word::SlashAssign => b"/=",
            Word::Break => b"break",
            Word::Case => b"case",
            Word::Catch => b"catch",
            Word::Continue => b"continue",
            Word::Debugger => b"debugger",
            Word::Default => b"default",
            Word::Delete => b"delete",
            Word::Do => b"do",
            Word::Else => b"else",
            Word::Finally => b"finally",
            Word::For => b"for",
            Word::Function => b"function",
            Word::If => b"if",
            Word::In => b"in",
            Word::InstanceOf => b"instanceof",
            Word::New => b"new",
            Word::Return => b"return",
            Word::Switch => b"switch",
            Word::This => b"this",
            Word::Throw => b"throw",
            Word::Try => b"try",
            Word::TypeOf => b"typeof",
            Word::Var => b"var",
            Word::Void => b"void",
            Word::While => b"while",
            Word::With => b"with",
            Word::Class => b"class",
            Word::Const => b"const",
            Word::Enum => b"enum",
            Word::Export => b"export",
            Word::Extends => b"extends",
            Word::Import => b"import",
            Word::Super => b"super",
            Word::Null => b"null",
            Word::True => b"true",
            Word::False => b"false",
        }
    }
}
