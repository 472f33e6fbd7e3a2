// What any list of requests makes of a plain book, as mathematics: the replies, the labels that each request may alter, and
// what is promised of a book that was asked so. The code that keeps the promise is in `history`.
#![tactic(auto)]
