// Tables of habits of other languages: the words around the offset at which the parser stops, and how it is written
// here.

// At a name that follows a number without a gap.
pub(crate) const NUMBERS: &str =
    "a number is digits alone: 1000000, and no 1e6, 1_000_000 or 0xf4240";

// At a `return` before the end of its function, or right after its statement.
pub(crate) const RETURNS: &str =
    "return stands once, at the end of its function: let r = 0; if x { r = 1; } return r;";

// Where a name must stand, and something else does.
pub(crate) const NAMES: &str =
    "a name begins with a letter or _, and is no word of the language (id, in, into, new, older, same, ..)";

// At a blank that isn't one of this language's.
pub(crate) const BLANKS: &str = "this blank comes from a word processor: type it anew";

// At a block of its own.
pub(crate) const BLOCKS: &str = "a block stands after if, else or while";

// At a second name for one parameter, which would be its type elsewhere.
pub(crate) const PARAMETERS: &str =
    "parameters are names with commas between them, and no type is written: fn f(a, b)";

// At an unexpected token: the word before it, the word that begins there, and the reason. An empty word fits anything.
// The first row that fits counts.
pub(crate) static TOKENS: [(&str, &str, &str); 102] = [
    (
        "/",
        "/",
        "a comment begins with #, and a division is one /, which cuts toward zero",
    ),
    ("", "//", "a comment begins with # and ends with its line"),
    ("", "/*", "a comment begins with # and ends with its line"),
    ("/", "*", "a comment begins with # and ends with its line"),
    ("let", "", NAMES),
    ("fn", "", NAMES),
    ("pfor", "", NAMES),
    ("into", "", NAMES),
    ("call", "", NAMES),
    ("spawn", "", NAMES),
    ("id", ")", "id says that a parameter is an id: fn f(id x)"),
    ("id", ",", "id says that a parameter is an id: fn f(id x)"),
    (
        "for",
        "",
        "a loop is let i = 0; while i < n { .. i = i + 1; }, or pfor i in 0..n call f(i);",
    ),
    (
        "break",
        "",
        "there is no break: make the condition of the while false",
    ),
    (
        "continue",
        "",
        "there is no continue: put the rest of the body into an if",
    ),
    (
        "else",
        "if",
        "an else has a block: else { if x == 1 { .. } }",
    ),
    ("elif", "", "an else has a block: else { if x == 1 { .. } }"),
    (
        "elsif",
        "",
        "an else has a block: else { if x == 1 { .. } }",
    ),
    ("}", ";", "after a block stands no ;"),
    (";", "{", BLOCKS),
    ("{", "{", BLOCKS),
    ("}", "{", BLOCKS),
    (
        "switch",
        "",
        "a choice is an if: if x == 1 { .. } else { .. }",
    ),
    ("draw", "(", "draw has no parentheses: let x = draw;"),
    ("new", "(", "new has no parentheses: let x = new;"),
    (
        "draw",
        "",
        "draw stands alone right of a =: let x = draw; and then an expression of x",
    ),
    ("new", "", "new stands alone right of a =: let x = new;"),
    (
        "+",
        "call",
        "a call stands alone, as a statement or right of a =: let x = call f(1); and then an expression of x",
    ),
    (
        "-",
        "call",
        "a call stands alone, as a statement or right of a =: let x = call f(1); and then an expression of x",
    ),
    (
        "*",
        "call",
        "a call stands alone, as a statement or right of a =: let x = call f(1); and then an expression of x",
    ),
    (
        "/",
        "call",
        "a call stands alone, as a statement or right of a =: let x = call f(1); and then an expression of x",
    ),
    (
        "%",
        "call",
        "a call stands alone, as a statement or right of a =: let x = call f(1); and then an expression of x",
    ),
    (
        "(",
        "call",
        "a call stands alone, as a statement or right of a =: let x = call f(1); and then an expression of x",
    ),
    (
        ",",
        "call",
        "a call stands alone, as a statement or right of a =: let x = call f(1); and then an expression of x",
    ),
    (
        "print",
        "call",
        "a call stands alone, as a statement or right of a =: let x = call f(1); and then an expression of x",
    ),
    (
        "return",
        "call",
        "a call stands alone, as a statement or right of a =: let x = call f(1); and then an expression of x",
    ),
    (
        "+",
        "spawn",
        "a spawn stands alone, as a statement or right of a =: let x = spawn f(1); and sync; before x is read",
    ),
    (
        "-",
        "spawn",
        "a spawn stands alone, as a statement or right of a =: let x = spawn f(1); and sync; before x is read",
    ),
    (
        "*",
        "spawn",
        "a spawn stands alone, as a statement or right of a =: let x = spawn f(1); and sync; before x is read",
    ),
    (
        "/",
        "spawn",
        "a spawn stands alone, as a statement or right of a =: let x = spawn f(1); and sync; before x is read",
    ),
    (
        "%",
        "spawn",
        "a spawn stands alone, as a statement or right of a =: let x = spawn f(1); and sync; before x is read",
    ),
    (
        "(",
        "spawn",
        "a spawn stands alone, as a statement or right of a =: let x = spawn f(1); and sync; before x is read",
    ),
    (
        ",",
        "spawn",
        "a spawn stands alone, as a statement or right of a =: let x = spawn f(1); and sync; before x is read",
    ),
    (
        "print",
        "spawn",
        "a spawn stands alone, as a statement or right of a =: let x = spawn f(1); and sync; before x is read",
    ),
    (
        "return",
        "spawn",
        "a spawn stands alone, as a statement or right of a =: let x = spawn f(1); and sync; before x is read",
    ),
    (
        "",
        "draw",
        "draw stands alone right of a = of a variable: let x = draw; and then an expression of x",
    ),
    (
        "",
        "new",
        "new stands alone right of a = of a variable: let x = new;",
    ),
    ("printf", "(", "print takes one number or id: print x;"),
    ("println", "(", "print takes one number or id: print x;"),
    ("sync", "(", "sync has no parentheses: sync;"),
    ("return", ";", "a function gives a value: return 0;"),
    ("", "+=", "x += 1 is x = x + 1;"),
    ("", "-=", "x -= 1 is x = x - 1;"),
    ("", "*=", "x *= 2 is x = x * 2;"),
    ("", "/=", "x /= 2 is x = x / 2;"),
    ("", "%=", "x %= 2 is x = x % 2;"),
    ("", "++", "x++ is x = x + 1;"),
    ("", "--", "x-- is x = x - 1;"),
    ("", ":=", "let x = 1; makes a variable, and x = 2; sets it"),
    ("[", "", "the length of an array is a number: let a[100];"),
    ("]", "=", "an array begins with zeros: let a[3];"),
    ("=", "[", "an array is let a[3]; and then a[0] = 1;"),
    ("int", "", "a variable is made by let: let x = 1;"),
    ("var", "", "a variable is made by let: let x = 1;"),
    ("const", "", "a variable is made by let: let x = 1;"),
    ("long", "", "a variable is made by let: let x = 1;"),
    (
        "double",
        "",
        "a variable is made by let, and is an integer: let x = 1;",
    ),
    (
        "float",
        "",
        "a variable is made by let, and is an integer: let x = 1;",
    ),
    (
        "->",
        "",
        "-> id is for a function that gives an id, and nothing is written for a number",
    ),
    ("", "int", "a function is fn f(a, b) { .. return 0; }"),
    ("", "void", "a function is fn f(a, b) { .. return 0; }"),
    ("", "def", "a function is fn f(a, b) { .. return 0; }"),
    ("", "func", "a function is fn f(a, b) { .. return 0; }"),
    ("", "function", "a function is fn f(a, b) { .. return 0; }"),
    ("", "import", "a script is one text: nothing is imported"),
    ("", "from", "a script is one text: nothing is imported"),
    ("", "use", "a script is one text: nothing is imported"),
    (
        "",
        ":",
        "a block stands in { and }, and nothing has a written type",
    ),
    (";", "}", "a function ends by a return: return 0; }"),
    ("}", "}", "a function ends by a return: return 0; }"),
    ("{", "}", "a function ends by a return: return 0; }"),
    (
        "",
        "&&",
        "both is a product: if (a < b) * (c < d) { .. }, or an if in an if",
    ),
    (
        "",
        "and",
        "both is a product: if (a < b) * (c < d) { .. }, or an if in an if",
    ),
    ("", "||", "one of two is a sum: if (a < b) + (c < d) { .. }"),
    ("", "or", "one of two is a sum: if (a < b) + (c < d) { .. }"),
    ("not", "", "not x is x == 0"),
    ("", "!=", "a comparison has a value on each side: a != b"),
    ("", "!", "not x is x == 0"),
    (">", ">", "there are no shifts: x / 2 and x * 2"),
    ("<", "<", "there are no shifts: x / 2 and x * 2"),
    (
        "",
        "&",
        "there are no operations on bits: use /, % and products",
    ),
    (
        "",
        "|",
        "there are no operations on bits: use /, % and products",
    ),
    (
        "",
        "^",
        "there is neither a power nor an operation on bits: multiply",
    ),
    (
        "",
        "~",
        "there are no operations on bits: use /, % and products",
    ),
    ("*", "*", "there is no power: multiply"),
    (
        "",
        "?",
        "a choice is an if: if a < b { x = 1; } else { x = 2; }",
    ),
    (
        "",
        "\"",
        "there are no strings: print takes a number or an id",
    ),
    (
        "",
        "'",
        "there are no strings: print takes a number or an id",
    ),
    ("", "\u{b}", BLANKS),
    ("", "\u{c}", BLANKS),
    (
        "",
        "..",
        "a range stands in a pfor alone: pfor i in 0..n call f(i);",
    ),
    (
        "",
        ".",
        "there are neither fractions nor fields: count in thousandths, say",
    ),
];

// The same, where a name stands between the two words.
pub(crate) static TOKENS_AFTER_NAMES: [(&str, &str, &str); 6] = [
    ("if", "=", "equality is =="),
    ("while", "=", "equality is =="),
    (
        "print",
        "(",
        "a call has its word and stands alone: let x = call f(1); print x;",
    ),
    (
        "return",
        "(",
        "a call has its word and stands alone: let x = call f(1); return x;",
    ),
    (
        "",
        "(",
        "a call has its word: call f(1); or let x = call f(1); and a spawn too",
    ),
    ("let", ";", "a variable begins with a value: let x = 0;"),
];

// At other faults: the message, the word that begins there, and the reason.
pub(crate) static OTHERS: [(&str, &str, &str); 25] = [
    ("unknown variable", "true", "true is 1, and false is 0"),
    ("unknown variable", "True", "true is 1, and false is 0"),
    ("unknown variable", "false", "true is 1, and false is 0"),
    ("unknown variable", "False", "true is 1, and false is 0"),
    (
        "pending variable",
        "",
        "the value of a spawn comes with a sync: write sync; before it is read",
    ),
    (
        "let in a block",
        "",
        "a variable is made outside of blocks: put the let before them",
    ),
    (
        "number out of range",
        "",
        "a number is at most 9223372036854775807, and the least is -9223372036854775807 - 1",
    ),
    (
        "not ASCII",
        "\u{feff}",
        "the text begins with a byte order mark: save it without one",
    ),
    (
        "not ASCII",
        "\u{201c}",
        "these quotes come from a word processor, and there are no strings",
    ),
    (
        "not ASCII",
        "\u{201d}",
        "these quotes come from a word processor, and there are no strings",
    ),
    (
        "not ASCII",
        "\u{2018}",
        "these quotes come from a word processor, and there are no strings",
    ),
    (
        "not ASCII",
        "\u{2019}",
        "these quotes come from a word processor, and there are no strings",
    ),
    (
        "not ASCII",
        "\u{2013}",
        "this dash comes from a word processor: a minus is -",
    ),
    (
        "not ASCII",
        "\u{2014}",
        "this dash comes from a word processor: a minus is -",
    ),
    (
        "not ASCII",
        "\u{2212}",
        "this dash comes from a word processor: a minus is -",
    ),
    ("not ASCII", "\u{a0}", BLANKS),
    ("not ASCII", "\u{2003}", BLANKS),
    ("not ASCII", "\u{2009}", BLANKS),
    ("not ASCII", "\u{200b}", BLANKS),
    ("not ASCII", "\u{2028}", BLANKS),
    ("array length", "", "an array has from 1 to 4096 items"),
    ("name too long", "", "a name has at most 32 bytes"),
    (
        "nested too deep",
        "",
        "at most 64 parentheses, brackets, braces and minuses are open at a time",
    ),
    (
        "too many functions",
        "",
        "a script has at most 1024 functions",
    ),
    (
        "too many variables",
        "",
        "a function has at most 256 variables, its parameters and arrays among them",
    ),
];
