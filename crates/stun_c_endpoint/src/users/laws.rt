//! Laws about a table of users after a call on it. They do nothing when they run.

ghost use Rattle.std.specs.Prelude.{◌≡◌, ◌≢◌, ◌⊎◌, ℕ, pos, List, Option, Some, None, Ok, Err, true, false};
ghost use Rattle.std.specs.Prelude.{length, if◌then◌else◌};
ghost use Rattle.std.specs.FinMap as map;
ghost use Rattle.stun_judging.specs.Algorithms.{contains};
ghost use Rattle.stun_judging.specs.Registered.{key_at, stored_key};
ghost use Rattle.stun_judging.specs.Realm.{RealmSeen};
ghost use Rattle.stun_judging.specs.declared.stored_keys.StoredKeys.{StoredKeys};
ghost use Rattle.stun_base.specs.Keys.{long_term_key};
ghost use Rattle.stun_endpoint.specs.Responding.{Responding};
ghost use Rattle.stun_endpoint.specs.Settings.{Settings};
ghost use Rattle.stun_endpoint.specs.ShortTerm.{Keys};
ghost use Rattle.stun_c_endpoint.specs.Found.{judge_of_found};
ghost use Rattle.stun_c_endpoint.specs.Kept.{Judge, judge_of};
ghost use Rattle.stun_c_endpoint.specs.Replies.{key_of_user};
ghost use Rattle.stun_c_endpoint.specs.UserLaws.{HasKey, HasUser, IsKeyPassed, IsName};
ghost use Rattle.stun_c_endpoint.specs.Users.{LeavesTable, LeavesTableOr, adding, adding_keys};
ghost use Rattle.stun_c_endpoint.specs.Users.{removing, table_for};
ghost use Rattle.stun_c_endpoint.specs.declared.handle.endpoint.Kept.{Kept};
ghost use Rattle.stun_c_endpoint.specs.declared.handle.endpoint.Kept.TheVariants as kind;
ghost use Rattle.stun_numbers.specs.declared.refusal.Refusal.{Refusal};

use stun_base::algorithm::IntegrityAlgorithm;

/// States which keys a table has for a user whom a call has added. The server verifies the user's
/// requests, and signs its responses to them, with one of these keys. The keys are made from the
/// name, the realm and the password (`password`), or are the keys that were passed, of which there is
/// at least one (`keys`). With short-term credentials, the key is the password itself
/// (`short_term`). No name is empty. All other users have the keys that they had before.
pub fn users_have_the_keys_that_were_passed()
    ensures password { (u : RealmSeen) (name password : List ℕ) (before now : Option Kept)
        → LeavesTableOr (adding name password (kind.Users u)) (pos 0) before now
        → (t : RealmSeen) × (now ≡ Some (kind.Users t)) × IsName name × (length password ≢ 0)
        × HasUser u.registered t.registered name
        (λ a. Some (long_term_key a name u.registered.realm password)) }
    ensures keys { (u : RealmSeen) (name sha1 sha256 : List ℕ) (before now : Option Kept)
        → LeavesTableOr (adding_keys name sha1 sha256 (kind.Users u)) (pos 0) before now
        → (t : RealmSeen) × (keys : StoredKeys) × (now ≡ Some (kind.Users t)) × IsName name
        × ((length sha1 ≢ 0) ⊎ (length sha256 ≢ 0)) × IsKeyPassed 16 sha1 keys.sha1 × IsKeyPassed 32 sha256 keys.sha256
        × HasUser u.registered t.registered name (stored_key keys) }
    ensures short_term { (u : Keys) (name password : List ℕ) (before now : Option Kept)
        → LeavesTableOr (adding name password (kind.ShortTermUsers u)) (pos 0) before now
        → (t : Keys) × (now ≡ Some (kind.ShortTermUsers t)) × IsName name
        × (length password ≢ 0) × HasKey u t name (Some password) }
{}

/// States that after a call has removed a user, the table has no key of that user, and still has
/// the keys of all other users. This holds for the tables of servers with long-term credentials
/// (`realm`) and with short-term credentials (`short_term`).
pub fn users_who_are_removed_have_no_key()
    ensures realm { (u : RealmSeen) (name : List ℕ) (before now : Option Kept)
        → LeavesTable (removing name (kind.Users u)) (pos 0) before now
        → (t : RealmSeen) × (now ≡ Some (kind.Users t))
        × HasUser u.registered t.registered name (λ a. None) }
    ensures short_term { (u : Keys) (name : List ℕ) (before now : Option Kept)
        → LeavesTable (removing name (kind.ShortTermUsers u)) (pos 0) before now
        → (t : Keys) × (now ≡ Some (kind.ShortTermUsers t)) × HasKey u t name None }
{}

/// A new table for a server with long-term credentials has the realm and the algorithms of the
/// server, and no keys (`realm`). A new table for a server with short-term credentials has no keys
/// (`short_term`). No table can be created for a server without credentials (`open`).
pub fn new_tables_are_empty()
    ensures realm { (s : Settings) (k : Kept) → table_for (kind.Server s) ≡ Ok k
        → (t : RealmSeen) × (k ≡ kind.Users t) × (t.registered.realm ≡ s.realm)
        × (t.registered.algorithms ≡ s.algorithms)
        × ((name : List ℕ) (a : IntegrityAlgorithm) → key_at t.registered name a ≡ None) }
    ensures short_term { (s : Responding) (k : Kept) → table_for (kind.ShortTerm s) ≡ Ok k
        → (t : Keys) × (k ≡ kind.ShortTermUsers t) × ((name : List ℕ) → map.get t name ≡ None) }
    ensures open { (s : Responding) (k : Kept) → table_for (kind.Open s) ≢ Ok k }
{}

/// States that after the caller has looked up the user of a request, the server judges the request
/// with a table that contains only this user.
///
/// - `password`, `keys`: the table is the one that results if the user is added to a new table of
///   the server, with the password (`password`) or with the stored keys (`keys`) that the caller
///   found.
/// - `key`, `nobody_else`: if the caller found a password, the table has the keys that are made
///   from this password for the server's algorithms (`key`), and no keys of other users
///   (`nobody_else`).
///
/// So the server refuses a client that signs as another user, and signs its response with the key
/// of the user who was found.
pub fn only_the_user_who_was_found_is_judged()
    ensures password { (s : Settings) (name password sha1 sha256 : List ℕ) (empty table : Kept)
        → table_for (kind.Server s) ≡ Ok empty → adding name password empty ≡ Ok table
        → judge_of_found name password true sha1 sha256 (Some (kind.Server s))
        ≡ judge_of (Some (kind.Server s)) (Some table) }
    ensures keys { (s : Settings) (name password sha1 sha256 : List ℕ) (empty table : Kept)
        → table_for (kind.Server s) ≡ Ok empty → adding_keys name sha1 sha256 empty ≡ Ok table
        → judge_of_found name password false sha1 sha256 (Some (kind.Server s))
        ≡ judge_of (Some (kind.Server s)) (Some table) }
    ensures key { (s : Settings) (name password sha1 sha256 : List ℕ) (judge : Judge)
        (agreed : IntegrityAlgorithm)
        → judge_of_found name password true sha1 sha256 (Some (kind.Server s)) ≡ Ok judge
        → key_of_user judge name agreed
        ≡ (if contains agreed s.algorithms
        then Some (long_term_key agreed name s.realm password) else None) }
    ensures nobody_else { (s : Settings) (name password sha1 sha256 other : List ℕ)
        (judge : Judge) (agreed : IntegrityAlgorithm)
        → judge_of_found name password true sha1 sha256 (Some (kind.Server s)) ≡ Ok judge
        → other ≢ name → key_of_user judge other agreed ≡ None }
{}
