// Native functions by number.
ghost use Rattle.std.specs.Prelude.{◌≡◌, ℕ, ◌∷◌, [], Some, is_some, length};
ghost use Rattle.js_host.specs.Natives.{is_either, is_only, named_at, native_at, names_where};
ghost use Rattle.js_host.specs.Natives.{natives};
ghost use Rattle.js_host.specs.Natives as table;
ghost use Rattle.js_host.specs.Numbers.{number_of};

use crate::Kind;
use js_ops::Hint;
use js_value::NativeId;

/// The native functions, by number. One without a holder in its name stands at the window, those of
/// a prototype have the prototype's name, and the listener calls are the same at nodes, at the
/// window and at requests.
#[derive(Clone, Copy, Debug, PartialEq, Eq)]
pub enum Builtin {
    ParseInt,
    IsNaN,
    SetTimeout,
    SetInterval,
    ClearTimeout,
    ClearInterval,
    ConsoleLog,
    Object,
    ObjectKeys,
    ObjectCreate,
    ObjectGetPrototypeOf,
    ObjectHasOwnProperty,
    ObjectToString,
    ObjectValueOf,
    FunctionCall,
    FunctionApply,
    FunctionBind,
    FunctionToString,
    Array,
    ArrayIsArray,
    ArrayPush,
    ArrayPop,
    ArrayShift,
    ArrayUnshift,
    ArraySplice,
    ArrayReverse,
    ArraySlice,
    ArrayConcat,
    ArrayJoin,
    ArrayIndexOf,
    ArrayForEach,
    ArrayMap,
    ArrayFilter,
    ArraySome,
    ArrayEvery,
    ArrayReduce,
    String,
    Number,
    Boolean,
    StringCharAt,
    StringCharCodeAt,
    StringIndexOf,
    StringSlice,
    StringSubstring,
    StringSplit,
    StringTrim,
    StringConcat,
    StringToString,
    StringValueOf,
    NumberToString,
    NumberValueOf,
    BooleanToString,
    BooleanValueOf,
    MathAbs,
    MathFloor,
    MathMin,
    MathMax,
    MathIdiv,
    MathRandom,
    Date,
    DateNow,
    DateGetTime,
    DateValueOf,
    DateToString,
    Error,
    TypeError,
    RangeError,
    ReferenceError,
    SyntaxError,
    ErrorToString,
    GetElementById,
    CreateElement,
    CreateTextNode,
    NodeAppendChild,
    NodeInsertBefore,
    NodeRemoveChild,
    NodeGetAttribute,
    NodeSetAttribute,
    NodeRemoveAttribute,
    AddEventListener,
    RemoveEventListener,
    DispatchEvent,
    Event,
    EventPreventDefault,
    EventStopPropagation,
    EventStopImmediatePropagation,
    XMLHttpRequest,
    RequestOpen,
    RequestSetRequestHeader,
    RequestSend,
    RequestAbort,
}

/// How a native may be called. What isn't allowed throws a TypeError, and converts nothing.
#[derive(Clone, Copy, Debug, PartialEq, Eq)]
pub enum Construct {
    /// Without `new` only.
    Never,
    Either,
    /// By `new` only.
    Only,
}

impl Construct {
    /// Whether a native throws when it is called so: with `new`, or without.
    pub fn refuses(self, by_new: bool) -> bool
        ensures { result ≡ table.refuses self by_new }
    {
        match self {
            Construct::Never => by_new,
            Construct::Either => false,
            Construct::Only => !by_new,
        }
    }
}

/// A native function. Before a call an object that stands as `this` or as an argument is converted
/// to a primitive value, where there is a hint for it; what is no object the native converts
/// itself.
#[derive(Clone, Copy, Debug, PartialEq, Eq)]
pub struct Native {
    pub name: Builtin,
    pub this: Option<Hint>,
    pub first: Option<Hint>,
    pub second: Option<Hint>,
    pub third: Option<Hint>,
    /// Of each argument behind the third.
    pub others: Option<Hint>,
    pub construct: Construct,
    /// What it may ask of the outside.
    pub asks: Option<Kind>,
}

impl Native {
    /// With which hint an object is converted that stands as `this`, at position 0, or as an
    /// argument.
    pub fn hint(self, position: usize) -> Option<Hint>
        ensures { result ≡ table.hint_at self position }
    {
        let hints = [self.this, self.first, self.second, self.third];
        hints.get(position).copied().unwrap_or(self.others)
    }
}

// `v`: an object is kept; `n`: it is converted with hint number; `t`: with hint text.
macro_rules! hint {
    (v) => {
        None
    };
    (n) => {
        Some(Hint::Number)
    };
    (t) => {
        Some(Hint::Text)
    };
}

macro_rules! question {
    (-) => {
        None
    };
    ($kind:ident) => {
        Some(Kind::$kind)
    };
}

// The rows of a table of natives.
macro_rules! natives {
    ($($name:ident $path:literal $this:tt ($a:tt $b:tt $c:tt) $more:tt $new:ident $asks:tt;)*) => {
        [$(Native {
            name: Builtin::$name,
            this: hint!($this),
            first: hint!($a),
            second: hint!($b),
            third: hint!($c),
            others: hint!($more),
            construct: Construct::$new,
            asks: question!($asks),
        }),*]
    };
}

// The paths of a table of natives.
macro_rules! paths {
    ($($name:ident $path:literal $this:tt ($a:tt $b:tt $c:tt) $more:tt $new:ident $asks:tt;)*) => {
        [$($path),*]
    };
}

// The table, by number (ECMA-262 edition 5.1, clause 15, and the DOM and HTML Standards): a line
// for each native, with its name, its path, what is done to `this`, to the first three arguments
// and to the others, whether it is called with `new`, and what it may ask.
macro_rules! table {
    ($form:ident) => {
        $form! {
            // Window
            ParseInt "parseInt" v (t n v) v Never -;
            IsNaN "isNaN" v (n v v) v Never -;
            SetTimeout "setTimeout" v (v n v) v Never -;
            SetInterval "setInterval" v (v n v) v Never -;
            ClearTimeout "clearTimeout" v (n v v) v Never -;
            ClearInterval "clearInterval" v (n v v) v Never -;
            ConsoleLog "console.log" v (v v v) v Never -;
            // Object
            Object "Object" v (v v v) v Either -;
            ObjectKeys "Object.keys" v (v v v) v Never -;
            ObjectCreate "Object.create" v (v v v) v Never -;
            ObjectGetPrototypeOf "Object.getPrototypeOf" v (v v v) v Never -;
            ObjectHasOwnProperty "Object.prototype.hasOwnProperty" v (t v v) v Never -;
            ObjectToString "Object.prototype.toString" v (v v v) v Never -;
            ObjectValueOf "Object.prototype.valueOf" v (v v v) v Never -;
            // Functions
            FunctionCall "Function.prototype.call" v (v v v) v Never -;
            FunctionApply "Function.prototype.apply" v (v v v) v Never -;
            FunctionBind "Function.prototype.bind" v (v v v) v Never -;
            FunctionToString "Function.prototype.toString" v (v v v) v Never -;
            // Arrays
            Array "Array" v (v v v) v Either -;
            ArrayIsArray "Array.isArray" v (v v v) v Never -;
            ArrayPush "Array.prototype.push" v (v v v) v Never -;
            ArrayPop "Array.prototype.pop" v (v v v) v Never -;
            ArrayShift "Array.prototype.shift" v (v v v) v Never -;
            ArrayUnshift "Array.prototype.unshift" v (v v v) v Never -;
            ArraySplice "Array.prototype.splice" v (n n v) v Never -;
            ArrayReverse "Array.prototype.reverse" v (v v v) v Never -;
            ArraySlice "Array.prototype.slice" v (n n v) v Never -;
            ArrayConcat "Array.prototype.concat" v (v v v) v Never -;
            ArrayJoin "Array.prototype.join" v (t v v) v Never -;
            ArrayIndexOf "Array.prototype.indexOf" v (v n v) v Never -;
            ArrayForEach "Array.prototype.forEach" v (v v v) v Never -;
            ArrayMap "Array.prototype.map" v (v v v) v Never -;
            ArrayFilter "Array.prototype.filter" v (v v v) v Never -;
            ArraySome "Array.prototype.some" v (v v v) v Never -;
            ArrayEvery "Array.prototype.every" v (v v v) v Never -;
            ArrayReduce "Array.prototype.reduce" v (v v v) v Never -;
            // Texts, numbers, booleans
            String "String" v (t v v) v Never -;
            Number "Number" v (n v v) v Never -;
            Boolean "Boolean" v (v v v) v Never -;
            StringCharAt "String.prototype.charAt" t (n v v) v Never -;
            StringCharCodeAt "String.prototype.charCodeAt" t (n v v) v Never -;
            StringIndexOf "String.prototype.indexOf" t (t n v) v Never -;
            StringSlice "String.prototype.slice" t (n n v) v Never -;
            StringSubstring "String.prototype.substring" t (n n v) v Never -;
            StringSplit "String.prototype.split" t (t v v) v Never -;
            StringTrim "String.prototype.trim" t (v v v) v Never -;
            StringConcat "String.prototype.concat" t (t v v) v Never -;
            StringToString "String.prototype.toString" t (v v v) v Never -;
            StringValueOf "String.prototype.valueOf" t (v v v) v Never -;
            NumberToString "Number.prototype.toString" v (v v v) v Never -;
            NumberValueOf "Number.prototype.valueOf" v (v v v) v Never -;
            BooleanToString "Boolean.prototype.toString" v (v v v) v Never -;
            BooleanValueOf "Boolean.prototype.valueOf" v (v v v) v Never -;
            // Math
            MathAbs "Math.abs" v (n v v) v Never -;
            MathFloor "Math.floor" v (n v v) v Never -;
            MathMin "Math.min" v (n n n) n Never -;
            MathMax "Math.max" v (n n n) n Never -;
            MathIdiv "Math.idiv" v (n n v) v Never -;
            MathRandom "Math.random" v (v v v) v Never Rand;
            // Dates
            Date "Date" v (n v v) v Only Now;
            DateNow "Date.now" v (v v v) v Never Now;
            DateGetTime "Date.prototype.getTime" v (v v v) v Never -;
            DateValueOf "Date.prototype.valueOf" v (v v v) v Never -;
            DateToString "Date.prototype.toString" v (v v v) v Never -;
            // Errors
            Error "Error" v (t v v) v Either -;
            TypeError "TypeError" v (t v v) v Either -;
            RangeError "RangeError" v (t v v) v Either -;
            ReferenceError "ReferenceError" v (t v v) v Either -;
            SyntaxError "SyntaxError" v (t v v) v Either -;
            ErrorToString "Error.prototype.toString" v (v v v) v Never -;
            // The document
            GetElementById "document.getElementById" v (t v v) v Never -;
            CreateElement "document.createElement" v (t v v) v Never -;
            CreateTextNode "document.createTextNode" v (t v v) v Never -;
            // Nodes
            NodeAppendChild "Node.prototype.appendChild" v (v v v) v Never -;
            NodeInsertBefore "Node.prototype.insertBefore" v (v v v) v Never -;
            NodeRemoveChild "Node.prototype.removeChild" v (v v v) v Never -;
            NodeGetAttribute "Node.prototype.getAttribute" v (t v v) v Never -;
            NodeSetAttribute "Node.prototype.setAttribute" v (t t v) v Never -;
            NodeRemoveAttribute "Node.prototype.removeAttribute" v (t v v) v Never -;
            // Listeners of nodes, the window and requests
            AddEventListener "Node.prototype.addEventListener" v (t v v) v Never -;
            RemoveEventListener "Node.prototype.removeEventListener" v (t v v) v Never -;
            DispatchEvent "Node.prototype.dispatchEvent" v (v v v) v Never -;
            // Events
            Event "Event" v (t v v) v Only -;
            EventPreventDefault "Event.prototype.preventDefault" v (v v v) v Never -;
            EventStopPropagation "Event.prototype.stopPropagation" v (v v v) v Never -;
            EventStopImmediatePropagation "Event.prototype.stopImmediatePropagation"
                v (v v v) v Never -;
            // Requests
            XMLHttpRequest "XMLHttpRequest" v (v v v) v Only -;
            RequestOpen "XMLHttpRequest.prototype.open" v (t t v) v Never -;
            RequestSetRequestHeader "XMLHttpRequest.prototype.setRequestHeader" v (t t v) v Never -;
            RequestSend "XMLHttpRequest.prototype.send" v (v v v) v Never -;
            RequestAbort "XMLHttpRequest.prototype.abort" v (v v v) v Never -;
        }
    };
}

/// The native functions: the number of each is its place.
pub static NATIVES: [Native; 91] = table!(natives);

/// The names of the natives, by number, each behind the path of its holder where that isn't the
/// window: where a program first reaches it.
pub const PATHS: [&str; 91] = table!(paths);

// The table, lent.
fn rows() -> &'static [Native]
    ensures { result.now ≡ natives }
{
    &NATIVES
}

/// The native function of this number.
pub fn native_of(id: NativeId) -> Option<Native>
    ensures { result ≡ native_at id.number }
{
    rows().get(id.number as usize).copied()
}

/// Each native stands in the table at its number and nowhere else; so no two have the same number.
pub fn natives_are_numbered_apart()
    ensures at { (b : Builtin) → named_at (number_of b) ≡ Some b }
    ensures only { (n : ℕ) (b : Builtin) → named_at n ≡ Some b → number_of b ≡ n }
    ensures count { length natives ≡ 91 }
{}

/// Which natives ask, which are called by `new` alone or also by `new`, and which convert `this`.
pub fn natives_that_ask_and_construct()
    ensures asks { names_where (λ row. is_some row.asks)
        ≡ Builtin.MathRandom ∷ Builtin.Date ∷ Builtin.DateNow ∷ [] }
    ensures only { names_where (λ row. is_only row.construct)
        ≡ Builtin.Date ∷ Builtin.Event ∷ Builtin.XMLHttpRequest ∷ [] }
    ensures either { names_where (λ row. is_either row.construct)
        ≡ Builtin.Object ∷ Builtin.Array ∷ Builtin.Error ∷ Builtin.TypeError
        ∷ Builtin.RangeError ∷ Builtin.ReferenceError ∷ Builtin.SyntaxError ∷ [] }
    ensures this { names_where (λ row. is_some row.this)
        ≡ Builtin.StringCharAt ∷ Builtin.StringCharCodeAt ∷ Builtin.StringIndexOf
        ∷ Builtin.StringSlice ∷ Builtin.StringSubstring ∷ Builtin.StringSplit
        ∷ Builtin.StringTrim ∷ Builtin.StringConcat ∷ Builtin.StringToString
        ∷ Builtin.StringValueOf ∷ [] }
{}
