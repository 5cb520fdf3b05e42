//! What help says beside the words that may stand on a command line: what is to be known before, examples, and what each line means
//! that a subcommand writes.

/// What help says last of a subcommand that takes delta files.
pub(crate) const COPIES: &str =
    "A source with `copy` goes through `collbench import-delta` first: in a delta file `copy` has no effect.";

/// What help says last of the subcommand that makes a table of a source.
pub(crate) const ORDERS: &str =
    "A source that changes a table, as by `reorder-after`: collbench import-delta TABLE SOURCE";

/// What help says last of the subcommand that makes a delta file of a source.
pub(crate) const TAILORS: &str =
    "A source that orders everything, and so makes a TABLE: collbench import SOURCE";

/// What help says last of the subcommands that ask a table for keys and orders, and take no delta file.
pub(crate) const ASKED: &str =
    "For a table with its delta files: collbench print TABLE DELTA.. > both.txt";

/// What help says last of the lines of an explanation.
pub(crate) const EXPLAINED: &str = "Lines:
  A <U0061> ..          the elements of the first text, characters and collating elements
  B <U0041> ..          those of the second
  level 1 forward equal
                        a level by its number and its rule, at which the keys of both are the same
  level 3 forward differs at 1: 2 <MIN> of <U0061>, 3 <CAP> of <U0041>
                        the first level at which they differ, and the first place of its numbers where they do, counted from
                        the end of the text where the level is backward: of either text the number there, the identifier that
                        has this rank, and the element that it comes from
  12+8364 UNDEFINED of <U20AC>
                        a number to which a code point is added, since the character has no entry
  gap 2 before <U002D>  under position, a number's position, which a key spells @2, and the element before which it stands, in the
                        direction of the level
  end                   the list of the text has ended there
  less                  what compare says: less, equal or greater

For a table with its delta files: collbench print TABLE DELTA.. > both.txt";

/// What help says last of the subcommand that reviews a delta file: what each line means.
pub(crate) const TOLD: &str = "For each statement:
  2 block <U0061> 1   its number, and what it is, as :history tells it
  parted 1            how many pairs of neighbours in the sorted words are neighbours no longer, in this order
  joined \"a\" \"c\"      a pair that is new, with the word that comes first; the first five of them
And last:
  review 2 7          how many statements were put, and how many words there are

A source with `copy` goes through `collbench import-delta` first: in a delta file `copy` has no effect.";

/// What help says last of the lines of a lint.
pub(crate) const LINTED: &str =
    "Lines, first of the fault that check tells, then of the others in the order of lines:
  de.txt:116: 34 NotDeclared <d-z'>: declare it with collating-symbol; is <dz> meant?
                          file, line, number and name of a fault, what it is about, what to do, and a declared name that is near
And behind the faults:
  de.txt:3: warning: ..   what does less than it seems to, where it is the only one of its kind
  de.txt: warning: ..     of several of a kind, how many they are, and the first five
  de.txt: more faults aren't told
                          behind a thousand of them

The exit status is 1 where there is a fault, and else 0. Where TABLE has one, DELTA isn't looked at.";

/// What help says last of the subcommand that serves a person.
pub(crate) const EDITED: &str =
    "The statements of the delta files are the first of the history. Each line of a session is answered as there, on standard
output, and what a refusal says is told on standard error. Beside them:
  :show <U0061>       an entry with its rank, weights and section, and three neighbours on each side
  :explain a A        why two texts compare as they do; texts without blanks need no quotes here, nor for :key and :compare
  :delta              the statements that remain, as the text of a delta file
  :write new.txt      the same, into a new file
  :words words.txt    the words of a file in the order now, with * before those whose neighbours the last statement changed
  :help, :help 34     what may be typed; the fault with a number, and what to do
  :quit               the end

A source with `copy` goes through `collbench import-delta` first: in a delta file `copy` has no effect.";

/// What help says last of the lines of a comparison.
pub(crate) const LINES: &str = "Lines:
  same                    the tables are the same
  rules forward backward  the rules of the second table, where they are others
  removed <X>             what the first table alone has
  added <X> behind <A>    what the second alone has, and what it stands directly behind there; or first, if behind nothing
  moved <X> behind <A>    what both have, and what it goes behind; first all that is removed or moved is taken out
  weights <X> <A>;IGNORE  an entry with other weights: those of the second table
  differences rules 0 ..  how many lines there were of each kind

A declaration stands there as in a table, as collating-symbol <X>, and the beginning of a section as section <S>; <X> alone is
an entry. A section that moves has a line for its beginning, and one for each of its entries; or all that it went past has.";

pub(crate) const EXAMPLES: &str = "Examples:
  collbench import iso14651_t1 > common.txt    the table of a published source
  collbench import-delta common.txt sv_SE      the delta file of a published tailoring, for that table
  collbench check base.txt                     table entries 9 declared 3 sections 2 levels 4
  collbench lint base.txt c_behind_a.txt       all faults of the delta file, and what does less than it seems to
  collbench edit base.txt                      a session for a person; :help says what may be typed
  collbench review base.txt c_behind_a.txt words.txt  which neighbours among the words each statement parts and joins
  collbench sort base.txt < words.txt          the words, one a line, in the order of the table
  collbench compare base.txt a A               less
  collbench explain base.txt a A               the elements of both texts, each level, and less
  collbench diff base.txt other.txt            same, or a line for each difference
  collbench print base.txt c_behind_a.txt      the table, in which c goes behind a
  collbench export base.txt > base.localedef   the table, in the form that localedef takes
  collbench key base.txt ab                    4 6 | 1 1 | 2 2 | |
  collbench compile base.txt                   the rank of each entry, and its weights as ranks
  collbench session base.txt < lines.txt       a reply to each line";
